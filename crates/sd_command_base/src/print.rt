ghost use Rattle.std.specs.Prelude.{◌≡◌, IfErr};
ghost use Rattle.sd_command_base.specs.Outside.{page_state};
ghost use Rattle.sd_command_base.specs.Outcome.{status_of};
ghost use Rattle.sd_command_base.specs.Prints.{PrintsText};

use crate::Status;
use sd_ports::{Sink, write_all};

/// Prints the whole text, or answers that print failed.
pub fn print_text<P: Sink>(print: &mut P, text: &[u8]) -> Result<(), Status>
    ensures value { PrintsText text.now (page_state P.Sink print.old) (page_state P.Sink print.new) (status_of result) }
    ensures fault { IfErr result (λ status. status ≡ Status.PrintFault) }
{
    match write_all(print, text) {
        Ok(()) => Ok(()),
        Err(_) => Err(Status::PrintFault),
    }
}
