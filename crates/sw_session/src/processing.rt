//! What is said to what was heard.

ghost use Rattle.std.specs.Prelude.{◌≡◌, Err, false, IfOk};
ghost use Rattle.sw_session.specs.Acts.{Takes, Notices};
ghost use Rattle.sw_session.specs.Serve.{Says, Processes, ProcessesEach, ServesHeard, Judges, acts_for};
ghost use Rattle.sw_session.specs.Server.{voice_of, stands, StaysServer, WriteFails};

use crate::after_step::{AfterStep, after_step, goes_on};
use crate::channel_server::ChannelServer;
use crate::fault::ServeFault;
use crate::speaking::{look, refuse, second_session, skip};
use crate::writing::Sink;
use std::alloc::AllocError;
use sw_channels::Step;
use sw_hislip::{Message, WireFault};
use sw_talk::Desk;

impl<W: Sink, S: Sink, D: Desk> ChannelServer<'_, '_, '_, '_, W, S, D> {
    /// Gives the writers what the engine said, if there was memory for it. `is_wrong` says that the wire was wrong.
    fn say(
        &mut self,
        said: Result<Step, AllocError>,
        is_wrong: bool,
    ) -> Result<AfterStep, ServeFault>
        ensures says { Says (voice_of D.passes self.old) said is_wrong (stands W.Sink S.Sink self.old)
            (stands W.Sink S.Sink self.new) result }
        ensures judged { IfOk result (λ after. Judges is_wrong after) }
        ensures write { result ≡ Err ServeFault.Write → WriteFails W.Sink S.Sink self.new }
        ensures decoder { self.new.decoder ≡ self.old.decoder }
        ensures stays { StaysServer self.old self.new }
    {
        let Ok(step) = said else {
            return Err(ServeFault::NoMemory);
        };
        let after = after_step(is_wrong, &step);
        match self.hand_all(step) {
            Ok(()) => Ok(after),
            Err(fault) => Err(fault),
        }
    }

    /// Says service requests, for which a second channel alone asks.
    pub fn notice(&mut self) -> Result<AfterStep, ServeFault>
        ensures processed { Processes (voice_of D.passes self.old) Notices (stands W.Sink S.Sink self.old)
            (stands W.Sink S.Sink self.new) result }
        ensures judged { IfOk result (λ after. Judges false after) }
        ensures write { result ≡ Err ServeFault.Write → WriteFails W.Sink S.Sink self.new }
        ensures decoder { self.new.decoder ≡ self.old.decoder }
        ensures stays { StaysServer self.old self.new }
    {
        match second_session(self.engine) {
            None => Ok(AfterStep::Goes),
            Some(sid) => {
                let said = look(self.alloc, sid, self.engine, self.desk);
                self.say(said, false)
            }
        }
    }

    /// Takes a message.
    fn take(&mut self, message: Message) -> Result<AfterStep, ServeFault>
        ensures processed { Processes (voice_of D.passes self.old) (Takes message) (stands W.Sink S.Sink self.old)
            (stands W.Sink S.Sink self.new) result }
        ensures judged { IfOk result (λ after. Judges false after) }
        ensures write { result ≡ Err ServeFault.Write → WriteFails W.Sink S.Sink self.new }
        ensures decoder { self.new.decoder ≡ self.old.decoder }
        ensures stays { StaysServer self.old self.new }
    {
        let said = self.engine.take(message, self.desk);
        self.say(said, false)
    }

    /// Takes a message, and says service requests before it.
    fn notice_and_take(&mut self, message: Message) -> Result<AfterStep, ServeFault>
        ensures processed { ProcessesEach (voice_of D.passes self.old) (acts_for (Takes message))
            (stands W.Sink S.Sink self.old) (stands W.Sink S.Sink self.new) result }
        ensures judged { IfOk result (λ after. Judges false after) }
        ensures write { result ≡ Err ServeFault.Write → WriteFails W.Sink S.Sink self.new }
        ensures decoder { self.new.decoder ≡ self.old.decoder }
        ensures stays { StaysServer self.old self.new }
    {
        let processed = self.notice();
        if goes_on(processed) {
            return self.take(message);
        }
        processed
    }

    /// Answers what is wrong with the wire.
    fn answer_fault(&mut self, fault: WireFault) -> Result<AfterStep, ServeFault>
        ensures served { ServesHeard (voice_of D.passes self.old) (Err fault) (stands W.Sink S.Sink self.old)
            (stands W.Sink S.Sink self.new) result }
        ensures write { result ≡ Err ServeFault.Write → WriteFails W.Sink S.Sink self.new }
        ensures decoder { self.new.decoder ≡ self.old.decoder }
        ensures stays { StaysServer self.old self.new }
    {
        match fault {
            WireFault::TooLarge(kind) => {
                let said = skip(self.alloc, kind, self.engine);
                self.say(said, false)
            }
            WireFault::BadPrologue => {
                let said = refuse(self.alloc, self.engine);
                self.say(said, true)
            }
            WireFault::NoMemory => Err(ServeFault::NoMemory),
        }
    }

    /// Serves what the decoder gave.
    pub fn serve(&mut self, heard: Result<Message, WireFault>) -> Result<AfterStep, ServeFault>
        ensures served { ServesHeard (voice_of D.passes self.old) heard (stands W.Sink S.Sink self.old)
            (stands W.Sink S.Sink self.new) result }
        ensures write { result ≡ Err ServeFault.Write → WriteFails W.Sink S.Sink self.new }
        ensures decoder { self.new.decoder ≡ self.old.decoder }
        ensures stays { StaysServer self.old self.new }
    {
        match heard {
            Ok(message) => self.notice_and_take(message),
            Err(fault) => self.answer_fault(fault),
        }
    }
}
