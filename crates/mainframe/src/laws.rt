//! What follows from the contract of a run, of the program's cards, and of a rack's.

ghost use Rattle.std.specs.Prelude.{◌≡◌, length};
ghost use Rattle.sw_base.specs.Limits.{most_slots};
ghost use Rattle.sw_cage.specs.Accounts.{Accounts, layout_of};
ghost use Rattle.sw_serve.specs.SlotCards.{Holds};
ghost use Rattle.mainframe.specs.Cards.{program_cards};
ghost use Rattle.mainframe.specs.Law.{RunIsDetermined};
ghost use Rattle.mainframe.specs.RackCards.{rack_cards, rack_layout};
ghost use Rattle.sw_serve.specs.Fitting.{AreWelcome};

use sw_core::step_is_determined;
use sw_rack::Rack;
use sw_session::{core_rest_is_determined, core_talk_is_determined};

/// A law: where no growth is refused, the cards, what is read, what is measured and what the cards do determine what is
/// written. What the cards do: for each call of the mainframe whether a card failed in it, and if so, how often each
/// card has failed after it; and whether a card that is asked says that it is sure of its relays.
pub fn run_is_determined()
    ensures { RunIsDetermined }
{
    step_is_determined();
    core_talk_is_determined();
    core_rest_is_determined();
}

/// A law: a mainframe takes each of the program's cards. So `desk_for_one` and `serve_cards` fail over them for want of
/// memory alone.
pub fn cards_are_welcome()
    ensures { AreWelcome program_cards }
{}

/// A law: a mainframe takes each card of a rack that was read. So it fails over them for want of memory alone.
pub fn rack_cards_are_welcome(rack: &Rack)
    ensures { AreWelcome (rack_cards rack.now.cards.items) }
{}

/// A law: slots that hold the cards of a rack that was read, and no others, have that rack's layout. So `check --rack`
/// judges by the cards that `run --rack` and `serve --rack` have.
pub fn rack_layout_is_the_mainframes(rack: &Rack)
    ensures { (slots : Accounts) → length slots ≡ most_slots → Holds slots (rack_cards rack.now.cards.items)
        → layout_of slots ≡ rack_layout rack.now.cards.items }
{}
