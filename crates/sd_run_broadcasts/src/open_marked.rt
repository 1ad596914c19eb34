ghost use Rattle.std.specs.Prelude.{◌≡◌, IfErr, IfOk};
ghost use Rattle.sd_command_base.specs.Outside.{depot_state};
ghost use Rattle.sd_run_broadcasts.specs.Marked.{IsCreatedMarked, IsOpenedMarked, MarkOutcome, NotOpenedMarked};
ghost use Rattle.sd_run_broadcasts.specs.Marked.{Unmarked};
ghost use Rattle.sd_command_base.specs.Shown.{shown_word};

use sd_command_base::{Status, Word, opening_fault, told};
use sd_ports::{Depot, New, write_new};
use std::alloc::Global;

/// Opens the file that is to go through a stage, makes the mark, an empty file that must be new, and then makes OUT. If
/// one of them fails, nothing stays open.
pub(crate) fn open_marked<D: Depot>(
    alloc: Global,
    depot: &mut D,
    from: Word<'_>,
    mark: Word<'_>,
    out: Word<'_>,
) -> Result<(D::Inlet, D::Outlet), Status>
    ensures ok { IfOk result (λ ports. IsOpenedMarked (shown_word mark.entry) (depot_state D.Depot depot.old)
        (depot_state D.Depot depot.new) from.entry.text.now out.entry.text.now (D.Inlet.left ports.0)
        (D.Outlet.held ports.1) (D.Inlet.faults ports.0) (D.Outlet.faults ports.1)) }
    ensures fault { IfErr result (NotOpenedMarked (shown_word from.entry) (shown_word mark.entry)
        (shown_word out.entry) (depot_state D.Depot depot.old) (depot_state D.Depot depot.new)) }
{
    let inlet = match depot.open_in(alloc, from.text) {
        Ok(inlet) => inlet,
        Err(fault) => return Err(opening_fault(from.number, fault)),
    };
    match create_marked(alloc, depot, mark, out) {
        Ok(outlet) => Ok((inlet, outlet)),
        Err(status) => {
            depot.close_in(inlet);
            Err(status)
        }
    }
}

/// Makes the mark, and then OUT.
fn create_marked<D: Depot>(
    alloc: Global,
    depot: &mut D,
    mark: Word<'_>,
    out: Word<'_>,
) -> Result<D::Outlet, Status>
    ensures ok { IfOk result (λ port. IsCreatedMarked (shown_word mark.entry) (depot_state D.Depot depot.old)
        (depot_state D.Depot depot.new) out.entry.text.now (D.Outlet.held port) (D.Outlet.faults port)) }
    ensures fault { IfErr result (Unmarked (shown_word mark.entry) (shown_word out.entry) 2
        (depot_state D.Depot depot.old) (depot_state D.Depot depot.new)) }
{
    make_mark(alloc, depot, mark)?;
    match depot.create_out(alloc, out.text) {
        Ok(outlet) => Ok(outlet),
        Err(fault) => Err(opening_fault(out.number, fault)),
    }
}

/// Makes the mark. The site is used if something has its name.
fn make_mark<D: Depot>(alloc: Global, depot: &mut D, mark: Word<'_>) -> Result<(), Status>
    ensures { MarkOutcome (shown_word mark.entry) (depot_state D.Depot depot.old) (depot_state D.Depot depot.new)
        result }
{
    match write_new(alloc, depot, mark.text, &[]) {
        Ok(New::Made) => Ok(()),
        Ok(New::There) => Err(Status::SiteUsed),
        Err(fault) => told(mark.number, Err(fault)),
    }
}
