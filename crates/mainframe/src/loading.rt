//! A scan program in a file.

ghost use Rattle.std.specs.Prelude.{◌≡◌, Ok, IfOk, IfErr, OnOk};
ghost use Rattle.sw_code.specs.Reading.{code_in};
ghost use Rattle.sw_talk.specs.CoreDesk.{CorePasses};
ghost use Rattle.sw_verify.specs.Runnable.{IsRunnable};
ghost use Rattle.sw_verify.specs.declared.setup.Loaded.TheVariants.{On};
ghost use Rattle.mainframe.specs.Run.{takes_program};

use crate::fault::RunFault;
use std::alloc::Global;
use sw_base::Boxed;
use sw_card::{Meter, Relay};
use sw_code::{Code, ListError, ListFault, explain_fault, read_listing};
use sw_core::{SessionAnswer, SessionAsk, Sid};
use sw_lex::{Command, Setting};
use sw_session::{CoreDesk, Desk};
use sw_verify::{ProgramFault, ScanProgram};

/// Why there is no program.
#[derive(Drop)]
pub enum LoadFault {
    /// The file can't be opened.
    File,
    /// It can't be read, or there is no memory.
    Run(RunFault),
    /// The text lists none: what is said of it.
    Listing(String),
}

impl From<RunFault> for LoadFault {
    fn from(fault: RunFault) -> LoadFault {
        LoadFault::Run(fault)
    }
}

/// What is said of a code that can be run nowhere.
const NOT_RUNNABLE: &str =
    "it can run nowhere: its loops aren't nested, do nothing or do more than can be counted, or \
    nothing is awaited";

/// The program that a text lists, or why there is none, as `check` prints it.
pub fn program_of(alloc: Global, text: &[u8]) -> Result<Boxed<ScanProgram>, LoadFault>
    ensures { IfOk result (λ p. (code_in text.now ≡ Ok p) × IsRunnable p) }
{
    match read_listing(alloc, text) {
        Ok(code) => judged(alloc, code),
        Err(error) => Err(unlisted(alloc, text, error)),
    }
}

/// Why a text lists no code.
fn unlisted(alloc: Global, text: &[u8], error: ListError) -> LoadFault {
    match error.kind {
        ListFault::NoMemory => LoadFault::Run(RunFault::Memory),
        kind => said(
            alloc,
            error.line,
            kind.name(),
            explain_fault(alloc, text, error),
        ),
    }
}

/// The program of a code, or that it can run nowhere.
fn judged(alloc: Global, code: Code) -> Result<Boxed<ScanProgram>, LoadFault>
    ensures { IfOk result (λ p. (p ≡ code) × IsRunnable code) }
{
    match ScanProgram::judge(alloc, code) {
        Ok(program) => match Boxed::new(alloc, program) {
            Ok(boxed) => Ok(boxed),
            Err(_) => Err(LoadFault::Run(RunFault::Memory)),
        },
        Err(ProgramFault::NoMemory) => Err(LoadFault::Run(RunFault::Memory)),
        Err(ProgramFault::NotRunnable) => match String::from_str(alloc, NOT_RUNNABLE) {
            Ok(remark) => Err(LoadFault::Listing(remark)),
            Err(_) => Err(LoadFault::Run(RunFault::Memory)),
        },
    }
}

/// The line of a fault, and why it is one where there was memory for that.
fn said(alloc: Global, line: u32, name: &str, cause: Option<String>) -> LoadFault {
    let text = match cause {
        Some(cause) => format!(in alloc; "line {line}: {name}\nline {line}: {cause}"),
        None => format!(in alloc; "line {line}: {name}"),
    };
    match text {
        Ok(text) => LoadFault::Listing(text),
        Err(_) => LoadFault::Run(RunFault::Memory),
    }
}

/// Takes the program as the instrument's, which is on then. The session asks for it as by a unit of a message.
pub fn load<R: Relay, M: Meter>(
    desk: &mut CoreDesk<R, M>,
    sid: Sid,
    program: Boxed<ScanProgram>,
) -> Result<(), RunFault>
    ensures asked { OnOk result (CorePasses desk.old (takes_program program sid) desk.new) }
    ensures on { OnOk result (desk.new.panel.settings
        ≡ record desk.old.panel.settings { program = On program }) }
    ensures memory { IfErr result (λ fault. fault ≡ RunFault.Memory) }
{
    let command = Command::Set(Setting::Program(program));
    match desk.ask(SessionAsk::Unit(sid, command, false)) {
        SessionAnswer::Done(None) => Ok(()),
        answer => {
            drop(answer);
            Err(RunFault::Memory)
        }
    }
}
