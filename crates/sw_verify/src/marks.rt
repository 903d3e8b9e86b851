//! The closed channels and their groups as rows of flags, so that a position is judged without a walk over them.

ghost use Rattle.std.specs.Prelude.{◌≡◌, length};
ghost use Rattle.sw_base.specs.Limits.{channel_places};
ghost use Rattle.sw_code.specs.Range.{IsInChannelRange};
ghost use Rattle.sw_verify.specs.Marks.{place, ChannelMarks, GroupMarks};

use crate::layout::Layout;
use crate::row::Row;
use sw_base::Chan;

/// Marks these channels and no others.
#[inline(always)]
pub fn channel_marks(marks: &mut Row, channels: &[Chan])
    ensures marks { ChannelMarks channels.now marks.new }
    ensures size { length marks.new ≡ channel_places }
{
    *marks = Row::new();
    for c in channels {
        marks.set(place(*c));
    }
}

/// Marks the groups of these channels and no others.
#[inline(always)]
pub fn group_marks(marks: &mut [bool; 256], layout: &Layout, channels: &[Chan])
    ensures marks { GroupMarks layout.now channels.now marks.new }
    ensures size { length marks.new ≡ 256 }
{
    *marks = [false; 256];
    for c in channels {
        marks[usize::from(layout.group(*c))] = true;
    }
}

/// A channel's place: its slot times 100 and its number.
#[inline(always)]
pub fn place(c: Chan) -> usize
    ensures place { result ≡ place c }
    ensures channel { IsInChannelRange c }
{
    usize::from(c.slot()) * 100 + usize::from(c.ch())
}
