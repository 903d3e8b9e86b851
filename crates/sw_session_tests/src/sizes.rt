//! How often the size of answers is asked for.

use crate::clients::{Client, FIRST, IDENTITY, bench, carrying, plain};
use std::alloc::Global;
use std::test::Fail;
use sw_core::{SessionAnswer, SessionAsk, Sid};
use sw_hislip::Kind;
use sw_session::{Desk, View, Wake};

/// A desk that counts how often it was asked for a size.
#[derive(Drop)]
struct Counting<D: Desk + Drop> {
    desk: D,
    sizes: u32,
}

impl<D: Desk + Drop> Desk for Counting<D> {
    ghost passes = { λ old entry new. Unit {0} };

    fn ask(&mut self, ask: SessionAsk) -> SessionAnswer {
        if matches!(ask, SessionAsk::MaxSize(_)) {
            self.sizes = self.sizes.saturating_add(1);
        }
        self.desk.ask(ask)
    }

    fn wait(&mut self, limit_ms: Option<u32>) -> Wake {
        self.desk.wait(limit_ms)
    }

    fn poll(&mut self, sid: Sid) -> View {
        self.desk.poll(sid)
    }

    fn note(&mut self, sid: Sid, mav: bool) {
        self.desk.note(sid, mav)
    }
}

/// Whether a size is asked for an answer alone, and where a device clear drops the message.
fn asks_sizes<D: Desk + Drop>(client: &mut Client, desk: &mut Counting<D>) -> bool {
    let clear = plain(Kind::AsyncDeviceClear, 0, 0);
    client.joins(desk, 1)
        && client.bids(desk, b"*CLS;*SRE 0")
        && client.bids(desk, b"")
        && desk.sizes == 0
        && client.asks(desk, b"*IDN?", IDENTITY)
        && desk.sizes == 1
        && client.adds(desk, clear, plain(Kind::AsyncDeviceClearAcknowledge, 0, 0))
        && client.is_quiet(desk, carrying(Kind::DataEnd, 1, FIRST, b"*IDN?"))
        && desk.sizes == 2
}

fn counts<D: Desk + Drop>(alloc: Global, desk: D) -> bool {
    let mut desk = Counting { desk, sizes: 0 };
    let mut client = Client::new(alloc);
    let is_so = asks_sizes(&mut client, &mut desk);
    drop(client);
    drop(desk);
    is_so
}

#[test]
fn the_size_is_asked_for_an_answer_alone(rt: HostRuntime) -> Result<(), Fail> {
    let Some(desk) = bench(rt.alloc()) else {
        return Err("no mainframe")?;
    };
    let is_so = counts(rt.alloc(), desk);
    assert!(rt; is_so);
    Ok(())
}
