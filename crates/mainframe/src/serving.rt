//! Serves the connections that come to a port, by the program's cards.

ghost use Rattle.std.specs.Prelude.{◌≡◌, ◌+◌, ◌<◌, ◌^◌, IfErr, OnOk};
ghost use Rattle.sw_serve.specs.Arrivals.{TakesUpTo};

use crate::cards::{first_card, in_slots, meter_card, second_card, third_card};
use crate::fault::RunFault;
use std::alloc::Global;
use std::sync::Wait;
use std::thread::Threads;
use std::time::Clock;
use sw_card::{Meter, Relay};
use sw_serve::{Log, Port, SlotCard, serve_cards, tell_failures};

/// Takes `limit` connections, or fewer where the port ends, each served by a thread of its own over the program's
/// cards, and then closes down. The log gets each failed call of a card.
pub fn serve_on<
    W: Threads + Wait + Clock + Copy + Drop + Send + Sync + 'static,
    P: Port,
    L: Log + Copy + Drop + Send + 'static,
>(rt: W, alloc: Global, port: &mut P, limit: u32, log: L) -> Result<(), RunFault>
    requires { P.taken port.old + limit < 2 ^ 32 }
    ensures memory { IfErr result (λ fault. fault ≡ RunFault.Memory) }
    ensures taken { OnOk result (TakesUpTo limit (P.taken port.old) (P.taken port.new) (P.ended port.new)) }
{
    let first: Box<dyn Relay + Send> = Box::new(alloc, first_card(None))?;
    let second: Box<dyn Relay + Send> = Box::new(alloc, second_card())?;
    let third: Box<dyn Relay + Send> = Box::new(alloc, third_card())?;
    let meter: Box<dyn Meter + Send> = Box::new(alloc, meter_card())?;
    let cards = in_slots(alloc, first, second, third, meter)?;
    serve_by(rt, alloc, port, limit, cards, log)
}

/// The same by these cards, which end with it. The program's are never refused (`cards_are_welcome`), so where it fails
/// there was no memory.
pub fn serve_by<
    R: Relay + Send + 'static,
    M: Meter + Send + 'static,
    W: Threads + Wait + Clock + Copy + Drop + Send + Sync + 'static,
    P: Port,
    L: Log + Copy + Drop + Send + 'static,
>(
    rt: W,
    alloc: Global,
    port: &mut P,
    limit: u32,
    cards: Vec<SlotCard<R, M>>,
    log: L,
) -> Result<(), RunFault>
    requires { P.taken port.old + limit < 2 ^ 32 }
    ensures memory { IfErr result (λ fault. fault ≡ RunFault.Memory) }
    ensures taken { OnOk result (TakesUpTo limit (P.taken port.old) (P.taken port.new) (P.ended port.new)) }
{
    let cards = tell_failures(alloc, cards, log)?;
    match serve_cards(rt, alloc, port, limit, cards) {
        Ok(closed) => {
            drop(closed);
            Ok(())
        }
        Err(_) => Err(RunFault::Memory),
    }
}
