ghost use Rattle.std.specs.Prelude.{◌≡◌, None};
ghost use Rattle.sd_run_broadcasts.specs.FieldPlayed.{EventOutcome, PlayOutcome};

use sd_base::Steps;
use sd_command_base::{Status, StreamRefusal};
use sd_field::{Field, FieldFault};
use std::sync::ledger::Ledger;

/// Runs all events of a new field, or returns the status of the event at which it stops.
pub fn play<L: Ledger>(field: &mut Field, steps: &mut Steps<L>) -> Result<(), Status>
    requires new { field.old.done ≡ 0 }
    requires calm { field.old.failed ≡ None }
    ensures { PlayOutcome field.old field.new result }
{
    while advance(field, steps)? {}
    Ok(())
}

/// Runs the next event of a field, and returns whether one was left.
fn advance<L: Ledger>(field: &mut Field, steps: &mut Steps<L>) -> Result<bool, Status>
    requires calm { field.old.failed ≡ None }
    ensures { EventOutcome field.old field.new result }
{
    match field.step(steps) {
        Ok(more) => Ok(more),
        Err(FieldFault::Clear(fault)) => Err(Status::BadClear(StreamRefusal::Packet(fault))),
        Err(FieldFault::NoMemory) => Err(Status::NoMemory),
    }
}
