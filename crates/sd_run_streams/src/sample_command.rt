//! `sample NUMBER PACKETS OUT`: a clear stream from a number.

ghost use Rattle.std.specs.Prelude.{◌≡◌, ◌≤◌, ℕ, IsErrOf};
ghost use Rattle.sd_ports.specs.Causes.{CountsCalls, HasFileCause};
ghost use Rattle.sd_ports.specs.Files.{WritesFile};
ghost use Rattle.sd_engine.specs.Sample.{sample_of};
ghost use Rattle.sd_command_base.specs.Outside.{PageState, io_state, depot_state};
ghost use Rattle.sd_command_base.specs.Outcome.{Implements, status_of};
ghost use Rattle.sd_run_streams.specs.Sample.{sample_meaning};
ghost use Rattle.sd_command_base.specs.Shown.{shown_word};

use sd_command_base::{Status, Word, told};
use sd_engine::MOST_SAMPLE_PACKETS;
use sd_ports::{Depot, FileFault};
use std::alloc::Global;

/// Does `sample NUMBER PACKETS OUT`.
#[inline(never)]
pub fn sample<D: Depot>(
    alloc: Global,
    depot: &mut D,
    number: u32,
    packets: u32,
    out: Word<'_>,
) -> Result<(), Status>
    requires { packets ≤ MOST_SAMPLE_PACKETS }
    ensures { (page : PageState) (steps : ℕ) → Implements (sample_meaning number packets (shown_word out.entry))
        (io_state (depot_state D.Depot depot.old) page steps) (io_state (depot_state D.Depot depot.new) page steps)
        (status_of result) }
{
    told(
        out.number,
        write_sample(alloc, depot, out.text, number, packets),
    )
}

/// Makes a file, writes the stream to it and closes it, and only then answers.
fn write_sample<D: Depot>(
    alloc: Global,
    depot: &mut D,
    name: &str,
    number: u32,
    packets: u32,
) -> Result<(), FileFault>
    requires { packets ≤ MOST_SAMPLE_PACKETS }
    ensures file { WritesFile (D.files depot.old) (D.files depot.new) (D.made depot.old) (D.made depot.new)
        name.now (sample_of number packets) result }
    ensures cause { HasFileCause
        (D.faults depot.old) (D.faults depot.new) (D.misses depot.old) (D.misses depot.new) result }
    ensures stops { ¬ IsErrOf result FileFault.Failed → D.stops depot.new ≡ D.stops depot.old }
    ensures later { D.stops depot.old ≤ D.stops depot.new }
    ensures ports { D.opened depot.new ≡ D.opened depot.old }
    ensures calls { CountsCalls (D.calls depot.old) (D.calls depot.new) result }
{
    let mut port = depot.create_out(alloc, name)?;
    let written = sd_engine::sample(number, packets, &mut port);
    let closed = depot.close_out(name, port);
    match written {
        Ok(()) => match closed {
            Ok(()) => Ok(()),
            Err(_) => Err(FileFault::Failed),
        },
        Err(_) => Err(FileFault::Failed),
    }
}
