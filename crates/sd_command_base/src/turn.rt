ghost use Rattle.std.specs.Prelude.{◌≡◌, IfOk, IfErr};
ghost use Rattle.sd_ports.specs.Files.{IsThere};
ghost use Rattle.sd_command_base.specs.Outside.{depot_state};
ghost use Rattle.sd_command_base.specs.Shown.{shown_word};
ghost use Rattle.sd_command_base.specs.Turned.{opening_status, unclosed_by, ArePortsClosed, ArePortsOpened, NotOpened};

use crate::Status;
use crate::word::Word;
use sd_ports::{Depot, DepotFault};
use std::alloc::Global;

/// Opens the file that is to go through a stage, and makes OUT; where OUT can't be made, nothing stays open.
pub fn open_both<D: Depot>(
    alloc: Global,
    depot: &mut D,
    from: Word<'_>,
    out: Word<'_>,
) -> Result<(D::Inlet, D::Outlet), Status>
    ensures ok { IfOk result (λ ports. ArePortsOpened (depot_state D.Depot depot.old) (depot_state D.Depot depot.new)
        from.entry.text.now out.entry.text.now (D.Inlet.left ports.0) (D.Outlet.held ports.1)
        (D.Inlet.faults ports.0) (D.Outlet.faults ports.1)) }
    ensures fault { IfErr result (NotOpened (shown_word from.entry) (shown_word out.entry)
        (depot_state D.Depot depot.old) (depot_state D.Depot depot.new)) }
{
    let inlet = match depot.open_in(alloc, from.text) {
        Ok(inlet) => inlet,
        Err(fault) => return Err(opening_fault(from.number, fault)),
    };
    match depot.create_out(alloc, out.text) {
        Ok(outlet) => Ok((inlet, outlet)),
        Err(fault) => {
            depot.close_in(inlet);
            Err(opening_fault(out.number, fault))
        }
    }
}

/// What the program answers if the file of this word gave no port.
pub fn opening_fault(word: u8, fault: DepotFault) -> Status
    ensures { result ≡ opening_status word fault }
{
    match fault {
        DepotFault::Missing => Status::Missing(word),
        DepotFault::Failed => Status::DepotFault,
        DepotFault::NoMemory => Status::NoMemory,
    }
}

/// Closes both once the stream has ended so, and only then answers how.
pub fn close_both<D: Depot>(
    depot: &mut D,
    inlet: D::Inlet,
    outlet: D::Outlet,
    out: Word<'_>,
    ended: Result<(), Status>,
) -> Result<(), Status>
    requires { IsThere (D.files depot.old) out.text.now }
    ensures { ArePortsClosed (depot_state D.Depot depot.old) (depot_state D.Depot depot.new) out.entry.text.now
        (D.Outlet.held outlet) (D.Inlet.faults inlet) (D.Outlet.faults outlet) ended result }
{
    depot.close_in(inlet);
    match depot.close_out(out.text, outlet) {
        Ok(()) => ended,
        Err(_) => unclosed(ended),
    }
}

/// What is answered where OUT was not closed: a refusal that is known stands, and running out of memory, and that print
/// failed.
fn unclosed(ended: Result<(), Status>) -> Result<(), Status>
    ensures { result ≡ unclosed_by ended }
{
    match ended {
        Err(Status::BadClear(refusal)) => Err(Status::BadClear(refusal)),
        Err(Status::BadStream(refusal)) => Err(Status::BadStream(refusal)),
        Err(Status::NoMemory) => Err(Status::NoMemory),
        Err(Status::PrintFault) => Err(Status::PrintFault),
        _ => Err(Status::DepotFault),
    }
}
