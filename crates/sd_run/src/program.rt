ghost use Rattle.std.specs.Prelude.{◌≡◌, ◌<◌, ℕ, List, Err, IfErr, IfOk, map, string_bytes};
ghost use Rattle.std.specs.Process.{exit_status};
ghost use Rattle.sd_command_base.specs.Exits.{code_of};
ghost use Rattle.sd_command_base.specs.Outside.{io_state, depot_state, PageState};
ghost use Rattle.sd_command_base.specs.Results.{RunResult, IsToldAs};
ghost use Rattle.sd_command_line.specs.CommandLine.{words_of};
ghost use Rattle.sd_command_line.specs.Words.{order_of};
ghost use Rattle.sd_run.specs.Answers.{IsAnswer, IsAnswerTo, IsUnread};
ghost use Rattle.sd_command_line.specs.Spelled.{spelled};
ghost use Rattle.sd_run.specs.Meaning.{meaning};

use crate::edge::{depot_for, names_output, trouble_in};
use crate::lines::Lines;
use crate::run;
use sd_base::Steps;
use sd_command_base::{Status, Trouble};
use sd_command_line::{CommandLine, explanation, spell_out, tell};
use sd_host::StdPrint;
use sd_ports::{Depot, write_all};
use std::alloc::Global;
use std::env;
use std::fs::Files;
use std::io::{ErrorKind, Write};
use std::marker::Brand;
use std::process::ExitCode;
use std::rt::Env;
use std::sync::ledger::{Blank, Ledger};

/// Runs the process's words over the machine's files. Its exit is the number of the status.
pub fn start<R: Env + Files + Print + AllocGlobal, O: Write + Drop, E: Write + Copy + Drop>(
    rt: &R,
    output: O,
    error: E,
) -> ExitCode
    ensures { (status : Status) × (IsAnswer status × (exit_status result ≡ code_of status)) }
{
    exit_of(answer(rt, output, error))
}

/// The exit of a status.
fn exit_of(status: Status) -> ExitCode
    ensures { exit_status result ≡ code_of status }
{
    ExitCode::from(status.code())
}

/// Runs the process's words, if they can be read.
#[tactic(auto, using(crate::proofs::Answering::answered))]
fn answer<R: Env + Files + Print + AllocGlobal, O: Write + Drop, E: Write + Copy + Drop>(
    rt: &R,
    output: O,
    error: E,
) -> Status
    ensures { IsAnswer result }
{
    match words(rt) {
        Ok(words) => answer_to(rt, &words, output, error),
        Err(status) => tell(rt.alloc(), &mut StdPrint::new(output), status),
    }
}

/// The words after the program's name, spelled out. Words that aren't UTF-8 are a faulty command line.
fn words(rt: &(impl Env + AllocGlobal)) -> Result<Vec<String>, Status>
    ensures spelled { IfOk result (λ words. (given : List (List ℕ)) × (map string_bytes words.items ≡ spelled given)) }
    ensures unread { IfErr result IsUnread }
{
    match env::args(rt) {
        Ok(args) => {
            let words = args.skip(1).collect(rt.alloc())?;
            Ok(spell_out(rt.alloc(), words)?)
        }
        Err(error) if error.kind() == ErrorKind::OutOfMemory => Err(Status::NoMemory),
        Err(_) => Err(Status::Usage),
    }
}

/// Runs the words. If a file that they name is the standard output, all lines go to the standard error, so that none
/// comes into a stream. A refusal is explained on the standard error, too.
fn answer_to<R: Files + Print + AllocGlobal, O: Write + Drop, E: Write + Copy + Drop>(
    rt: &R,
    words: &[String],
    output: O,
    error: E,
) -> Status
    ensures value { IsAnswerTo (map string_bytes words.now) result }
    ensures words { (status : Status) → order_of (map string_bytes words.now) ≡ Err status → IsToldAs status result }
{
    let alloc = rt.alloc();
    let line = CommandLine::read(words);
    let mut depot = depot_for(alloc, rt, &line);
    let to_error = names_output(&depot, &line);
    let lines = Lines {
        output,
        error,
        to_error,
    };
    let status = counted::<Brand, _, _, _>(alloc, &line, &mut depot, lines, error, Blank::new(1));
    explain(alloc, &line, trouble_in(&depot), status, error);
    status
}

/// Runs the words with a counter over a new ledger, and writes what is printed, and to `error` what is said while a
/// command runs.
fn counted<L: Ledger, D: Depot, W: Write + Drop, E: Write + Drop>(
    alloc: Global,
    line: &CommandLine<'_>,
    depot: &mut D,
    lines: W,
    error: E,
    blank: Blank,
) -> Status
    requires name { blank.name ≡ L.name }
    requires parts { blank.parts ≡ L.parts }
    requires some { 0 < blank.parts }
    ensures value { (before after : PageState) × ((steps : ℕ) × RunResult (meaning (words_of line.now))
        (io_state (depot_state D.Depot depot.old) before 0)
        (io_state (depot_state D.Depot depot.new) after steps) result) }
    ensures words { (status : Status) → order_of (words_of line.now) ≡ Err status → IsToldAs status result }
{
    let mut print = StdPrint::new(lines);
    let mut notes = StdPrint::new(error);
    let mut steps = Steps::<L>::new(blank);
    run(alloc, line, depot, &mut print, &mut notes, &mut steps)
}

/// Says to a user what is wrong with an argument. The status and its line are the answer, so it doesn't matter if this
/// can't be said.
fn explain<E: Write + Drop>(
    alloc: Global,
    line: &CommandLine<'_>,
    trouble: Option<(&str, Trouble)>,
    status: Status,
    error: E,
) {
    if let Ok(text) = explanation(alloc, line, trouble, status) {
        write_all(&mut StdPrint::new(error), text.as_bytes()).ok();
    }
}
