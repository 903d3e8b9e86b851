//! Where a meter's readings come from.

ghost use Rattle.std.specs.Prelude.{◌≡◌, Result, ⊤};
ghost use Rattle.sw_base.specs.declared.reading.Reading.{Reading};
ghost use Rattle.sw_card.specs.declared.board.CardFault.{CardFault};

use sw_base::Reading;
use sw_card::CardFault;

/// Gives one reading at each call.
///
/// A source that knows what a call did to it says so in `samples`; one that does not leaves this out.
pub trait Source: Drop {
    // What a call of `sample` may do: the source before it, result, the source after it.
    ghost samples: { Self → Result Reading CardFault → Self → Type 0 } = { λ _ _ _. ⊤ };

    /// Measures once.
    fn sample(&mut self) -> Result<Reading, CardFault>
        ensures { samples self.old result self.new };
}
