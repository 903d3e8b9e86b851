//! What is closed while the verifier looks at a code's steps, as rows of flags.

ghost use Rattle.std.specs.Prelude.{◌≡◌, ◌<◌, true, false, OnOk, IfErr};
ghost use Rattle.sw_base.specs.Layout.{Channel};
ghost use Rattle.sw_base.specs.Limits.{channel_places};
ghost use Rattle.sw_verify.specs.declared.refusal.Refusal.TheVariants.{NotClosed};
ghost use Rattle.sw_verify.specs.Channels.{Channels, none, is_among, with_channel, without, with_each, without_each};
ghost use Rattle.sw_verify.specs.Sound.{CanCloseOne, CanCloseEach, CanOpenEach};
ghost use Rattle.sw_verify.specs.Stops.{IsBarred, IsBarredAt, IsNotMineAt};
ghost use Rattle.sw_verify.specs.Ledger.{Shows, is_taken};

use crate::layout::Layout;
use crate::marks::{channel_marks, group_marks, place};
use crate::refusal::Refusal;
use crate::row::Row;
use sw_base::Chan;
use sw_channel::Position;

/// What was closed at the start, what the code closed since, and the groups of both.
#[derive(Drop)]
pub struct Ledger {
    found: Row,
    pub mine: Row,
    groups: [bool; 256],
}

impl Ledger {
    /// Room for what is closed, where it stays while the verifier looks on.
    #[inline(always)]
    pub fn room() -> Ledger {
        Ledger {
            found: Row::new(),
            mine: Row::new(),
            groups: [false; 256],
        }
    }

    /// Begins with these channels closed, and forgets what it showed before.
    #[inline(always)]
    pub fn begin(&mut self, layout: &Layout, closed: &[Chan])
        ensures { Shows layout.now (is_among closed.now) (is_among closed.now) none self.new }
    {
        channel_marks(&mut self.found, closed);
        self.mine = Row::new();
        group_marks(&mut self.groups, layout, closed);
    }

    /// Closes the channels of a position, in order, where each is there, is open and shares a group with no closed one.
    pub fn close(&mut self, layout: &Layout, position: &Position) -> Result<(), Refusal>
        ensures closed { OnOk result ((start b m : Channels) → Shows layout.now start b m self.old
            → CanCloseEach layout.now b position.now
            × Shows layout.now start (with_each position.now b) (with_each position.now m) self.new) }
        ensures barred { IfErr result (λ r. (start b m : Channels) → Shows layout.now start b m self.old
            → IsBarredAt layout.now b position.now r) }
    {
        for c in position.as_slice() {
            if let Err(wrong) = self.close_one(layout, *c) {
                return Err(wrong);
            }
        }
        Ok(())
    }

    /// Opens the channels of a position, in order, where the code closed each.
    pub fn open(&mut self, layout: &Layout, position: &Position) -> Result<(), Refusal>
        ensures opened { OnOk result ((start b m : Channels) → Shows layout.now start b m self.old
            → CanOpenEach m position.now
            × Shows layout.now start (without_each position.now b) (without_each position.now m) self.new) }
        ensures refused { IfErr result (λ r. (r ≡ NotClosed) × ((start b m : Channels)
            → Shows layout.now start b m self.old → IsNotMineAt m position.now)) }
    {
        for c in position.as_slice() {
            if let Err(wrong) = self.open_one(layout, *c) {
                return Err(wrong);
            }
        }
        Ok(())
    }

    /// Closes a channel, where it is there, is open and shares a group with no closed one.
    fn close_one(&mut self, layout: &Layout, c: Chan) -> Result<(), Refusal>
        ensures closed { OnOk result ((start b m : Channels) → Shows layout.now start b m self.old
            → CanCloseOne layout.now b c × Shows layout.now start (with_channel c b) (with_channel c m) self.new) }
        ensures barred { IfErr result (λ r. (start b m : Channels) → Shows layout.now start b m self.old
            → IsBarred layout.now b c r) }
    {
        if !layout.has_channel(c) {
            return Err(Refusal::NoChannel);
        }
        let at = place(c);
        let group = layout.group(c);
        if self.is_taken(at, group) {
            return Err(Refusal::GroupClash);
        }
        self.mine.set(at);
        self.groups[usize::from(group)] = true;
        Ok(())
    }

    /// Opens a channel, where the code closed it.
    fn open_one(&mut self, layout: &Layout, c: Chan) -> Result<(), Refusal>
        ensures opened { OnOk result ((start b m : Channels) → Shows layout.now start b m self.old
            → (m c ≡ true) × Shows layout.now start (without c b) (without c m) self.new) }
        ensures refused { IfErr result (λ r. (r ≡ NotClosed) × ((start b m : Channels)
            → Shows layout.now start b m self.old → m c ≡ false)) }
    {
        let at = place(c);
        if !self.mine.has(at) {
            return Err(Refusal::NotClosed);
        }
        self.mine.clear(at);
        self.groups[usize::from(layout.group(c))] = false;
        Ok(())
    }

    fn is_taken(&self, at: usize, group: u8) -> bool
        requires { at < channel_places }
        ensures { result ≡ is_taken self.now at group }
    {
        self.found.has(at) || self.mine.has(at) || (group != 0 && self.groups[usize::from(group)])
    }
}
