ghost use Rattle.std.specs.Prelude.{◌≡◌};
ghost use Rattle.sd_command_base.specs.Texts.{line_of_status};
ghost use Rattle.sd_command_base.specs.Outside.{page_state};
ghost use Rattle.sd_command_base.specs.Results.{PrintsLine, PrintsStatusLine};

use sd_command_base::{Status, status_line};
use sd_ports::{Sink, write_all};
use std::alloc::Global;

/// Prints the line of a status, and answers the status: `NoMemory` where memory runs out for the line, and
/// `PrintFault` where print failed. `Done` and `PrintFault` have no line.
#[tactic(auto, unfolding(sd_command_base::specs::Texts::line_of_status))]
pub fn tell<P: Sink>(alloc: Global, print: &mut P, status: Status) -> Status
    ensures { PrintsStatusLine (page_state P.Sink print.old) (page_state P.Sink print.new) status result }
{
    match status_line(alloc, status) {
        Ok(line) => say(print, status, line.as_str().as_bytes()),
        Err(_) => say(print, Status::NoMemory, b"no memory\n"),
    }
}

/// Prints the line that belongs to a status.
fn say<P: Sink>(print: &mut P, status: Status, line: &[u8]) -> Status
    requires { line.now ≡ line_of_status status }
    ensures { PrintsLine (page_state P.Sink print.old) (page_state P.Sink print.new) status result }
{
    match write_all(print, line) {
        Ok(()) => status,
        Err(_) => Status::PrintFault,
    }
}
