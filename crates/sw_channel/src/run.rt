//! Runs of channels: what one item of a list names.

ghost use Rattle.std.specs.Prelude.{◌≡◌, ◌≤◌, ◌<◌};
ghost use Rattle.sw_base.specs.Limits.{most_channels};
ghost use Rattle.sw_channel.specs.Meaning.{count_between, towards};

use sw_base::Chan;

/// Every channel of a slot from the first to the last, downwards where the first is greater.
#[derive(Clone, Copy)]
pub struct Run {
    pub first: Chan,
    pub last: Chan,
}

impl Run {
    /// How many channels these are.
    pub fn count(&self) -> u8
        ensures value { result ≡ count_between self.now.first.1 self.now.last.1 }
        ensures range { result ≤ most_channels }
    {
        let from = self.first.ch();
        let to = self.last.ch();
        if from <= to {
            to - from + 1
        } else {
            from - to + 1
        }
    }

    /// The channel `k` places from the first towards the last.
    pub fn channel(&self, k: u8) -> Chan
        requires { k < count_between self.now.first.1 self.now.last.1 }
        ensures { result ≡ (self.now.first.0, towards self.now.first.1 self.now.last.1 k) }
    {
        let from = self.first.ch();
        let ch = if from <= self.last.ch() {
            from + k
        } else {
            from - k
        };
        Chan::new(self.first.slot(), ch)
    }
}
