//! An engine as a server asks it.

ghost use Rattle.std.specs.Prelude.{◌≡◌, Some, IfOk, OnErr};
ghost use Rattle.sw_channels.specs.EngineStep.{LedBy, says, fails, reply_step};
ghost use Rattle.sw_channels.specs.Engine.{channel_of_state, too_large, skips};
ghost use Rattle.sw_session.specs.ServeEngine.{Looks, second_session_of, told_step};
ghost use Rattle.sw_channels.specs.declared.refusals.FatalCode.TheVariants.{PoorlyFormed};

use std::alloc::{AllocError, Global};
use sw_channels::{Channel, Engine, FatalCode, Reply, Step, step_of};
use sw_core::Sid;
use sw_hislip::{Kind, Message};
use sw_talk::Desk;

/// Answers a message of this kind, which was too large.
pub fn skip(alloc: Global, kind: Kind, engine: &mut Engine) -> Result<Step, AllocError>
    ensures says { IfOk result (λ step. step ≡ says (channel_of_state engine.old.state) too_large) }
    ensures skips { IfOk result (λ _. engine.new ≡ record engine.old { state = skips kind engine.old.state }) }
    ensures same { OnErr result (engine.new ≡ engine.old) }
{
    let room = Vec::with_capacity(alloc, 1)?;
    let channel = engine.channel();
    Ok(step_of(alloc, channel, room, Reply::Says(engine.skip(kind))))
}

/// Answers a header that doesn't begin with `HS`.
pub fn refuse(alloc: Global, engine: &Engine) -> Result<Step, AllocError>
    ensures { IfOk result (λ step. step ≡ fails (channel_of_state engine.now.state) PoorlyFormed) }
{
    let room = Vec::with_capacity(alloc, 1)?;
    let reply = Reply::Fails(FatalCode::PoorlyFormed);
    Ok(step_of(alloc, engine.channel(), room, reply))
}

/// The session whose second channel this is.
pub fn second_session(engine: &Engine) -> Option<Sid>
    ensures { result ≡ second_session_of engine.now.state }
{
    match engine.channel() {
        Channel::Synchronous => None,
        Channel::Asynchronous => engine.session(),
    }
}

/// What is said of service requests.
fn told(notice: Option<Message>) -> Reply
    ensures { reply_step Channel.Asynchronous result ≡ told_step notice }
{
    match notice {
        Some(message) => Reply::Says(message),
        None => Reply::Silence,
    }
}

/// Says service requests that were not said yet, on the second channel of this session.
pub fn look<D: Desk>(
    alloc: Global,
    sid: Sid,
    engine: &mut Engine,
    desk: &mut D,
) -> Result<Step, AllocError>
    requires { second_session_of engine.old.state ≡ Some sid }
    ensures ok { IfOk result (λ step. LedBy D.passes desk.old desk.new (λ asked.
        Looks engine.old.state asked step engine.new.state)) }
    ensures spent { engine.new.spent ≡ engine.old.spent }
    ensures same { OnErr result (engine.new ≡ engine.old) }
    ensures unasked { OnErr result (desk.new ≡ desk.old) }
{
    let room = Vec::with_capacity(alloc, 1)?;
    let notice = engine.notice(desk.poll(sid));
    Ok(step_of(alloc, Channel::Asynchronous, room, told(notice)))
}
