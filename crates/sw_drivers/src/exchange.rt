//! Asking a board by Modbus, and taking its answer.

ghost use Rattle.std.specs.Prelude.{◌≡◌, ◌≤◌, ◌+◌, ◌∷◌, ◌++◌, ℕ, List, IfOk, OnOk, [], length, false};
ghost use Rattle.sw_drivers.specs.Frames.{IsSmall, bytes_for, confirms, frame, tells, wrapped};
ghost use Rattle.sw_drivers.specs.Wires.{Fewer, IsAll, IsHonest, SaysOff, Switched, grown};

use crate::fault::DriverFault;
use crate::frame::{
    FRAME, Frame, Request, Wrapping, answer_size, frame_of, is_done, put, refusal_in, states_in,
};
use crate::wire::Wire;

/// How the driver asks a board: what wraps a frame, the frame's number, and the board's unit.
#[derive(Clone, Copy, Debug, PartialEq, Eq)]
pub struct Asking {
    pub wrapping: Wrapping,
    pub number: u16,
    pub unit: u8,
}

/// Has the board change something, by one exchange. `Ok` only where its answer says that it has.
pub fn change<L: Wire>(link: &mut L, asking: Asking, request: Request) -> Result<(), DriverFault>
    requires { IsSmall request }
    ensures asked { OnOk result (IsAll (L.asked link.new)
        (frame asking.wrapping asking.number asking.unit request)) }
    ensures confirmed { OnOk result (IsAll (L.answered link.new)
        (wrapped asking.wrapping asking.number (asking.unit ∷ confirms request))) }
    ensures switched { Switched asking.unit request (L.on link.old) (L.on link.new) }
    ensures off { OnOk result ((coil : ℕ) → SaysOff request (confirms request) coil
        → L.on link.new asking.unit coil ≡ false) }
{
    let Asking {
        wrapping,
        number,
        unit,
    } = asking;
    ask(link, asking, request)?;
    let answer = receive(link, asking, request)?;
    if is_done(wrapping, number, unit, request, answer.as_slice()) {
        Ok(())
    } else {
        Err(DriverFault::Garbled)
    }
}

/// Asks the board for the states of `count` coils, by one exchange.
pub fn look<L: Wire>(
    link: &mut L,
    asking: Asking,
    first: u16,
    count: u16,
) -> Result<Frame, DriverFault>
    requires { count ≤ 99 }
    ensures size { IfOk result (λ states. length states.items ≡ bytes_for count) }
    ensures asked { OnOk result (IsAll (L.asked link.new)
        (frame asking.wrapping asking.number asking.unit (Request.Read first count))) }
    ensures told { IfOk result (λ states. IsAll (L.answered link.new)
        (wrapped asking.wrapping asking.number (asking.unit ∷ tells count states.items))) }
    ensures sent { OnOk result (L.sent link.new ≡ grown (L.sent link.old)
        (frame asking.wrapping asking.number asking.unit (Request.Read first count))) }
    ensures fewer { Fewer (L.on link.old) (L.on link.new) }
{
    let Asking {
        wrapping,
        number,
        unit,
    } = asking;
    let request = Request::Read(first, count);
    ask(link, asking, request)?;
    let answer = receive(link, asking, request)?;
    states_in(wrapping, number, unit, count, answer.as_slice()).ok_or(DriverFault::Garbled)
}

/// Begins an exchange, and sends the request.
fn ask<L: Wire>(link: &mut L, asking: Asking, request: Request) -> Result<(), DriverFault>
    requires { IsSmall request }
    ensures asked { OnOk result (IsAll (L.asked link.new)
        (frame asking.wrapping asking.number asking.unit request)) }
    ensures answered { OnOk result (IsAll (L.answered link.new) []) }
    ensures sent { OnOk result (L.sent link.new ≡ grown (L.sent link.old)
        (frame asking.wrapping asking.number asking.unit request)) }
    ensures switched { Switched asking.unit request (L.on link.old) (L.on link.new) }
{
    let Asking {
        wrapping,
        number,
        unit,
    } = asking;
    link.begin()?;
    link.send(frame_of(wrapping, number, unit, request).as_slice())?;
    Ok(())
}

/// Hears an answer that doesn't refuse.
fn receive<L: Wire>(link: &mut L, asking: Asking, request: Request) -> Result<Frame, DriverFault>
    requires { IsSmall request }
    ensures answered { IfOk result (λ frame. L.answered link.new ≡ grown (L.answered link.old) frame.items) }
    ensures asked { L.asked link.new ≡ L.asked link.old }
    ensures sent { L.sent link.new ≡ L.sent link.old }
    ensures fewer { Fewer (L.on link.old) (L.on link.new) }
    ensures honest { OnOk result (IsHonest (L.asked link.new) (L.answered link.new) (L.on link.new)) }
{
    let (head, size) = match asking.wrapping {
        Wrapping::Tcp => (9, 7 + answer_size(request)),
        Wrapping::Rtu => (5, 3 + answer_size(request)),
    };
    let mut frame = Frame::new();
    hear_more(link, &mut frame, head)?;
    let refusal = refusal_in(
        asking.wrapping,
        asking.number,
        asking.unit,
        request,
        frame.as_slice(),
    );
    if let Some(code) = refusal {
        return Err(DriverFault::Exception(code));
    }
    hear_more(link, &mut frame, size - head)?;
    Ok(frame)
}

/// Hears `size` bytes more.
fn hear_more<L: Wire>(link: &mut L, frame: &mut Frame, size: usize) -> Result<(), DriverFault>
    requires { length frame.old.items + size ≤ 32 }
    ensures answered { OnOk result ((more : List ℕ) × (L.answered link.new ≡ grown (L.answered link.old) more)
        × (frame.new.items ≡ frame.old.items ++ more) × (length more ≡ size)) }
    ensures asked { L.asked link.new ≡ L.asked link.old }
    ensures sent { L.sent link.new ≡ L.sent link.old }
    ensures fewer { Fewer (L.on link.old) (L.on link.new) }
    ensures honest { OnOk result (IsHonest (L.asked link.new) (L.answered link.new) (L.on link.new)) }
{
    let mut room = [0_u8; FRAME];
    let (front, _) = room.split_at_mut(size);
    link.hear(front)?;
    put(frame, front);
    Ok(())
}
