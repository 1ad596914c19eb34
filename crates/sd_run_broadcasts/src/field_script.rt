ghost use Rattle.std.specs.Prelude.{◌≡◌, ◌≤◌, All, IfOk, length, true};
ghost use Rattle.sd_spec.specs.Events.{is_of};
ghost use Rattle.sd_field.specs.Script.{script_of};
ghost use Rattle.sd_command_base.specs.Outside.{depot_state};
ghost use Rattle.sd_command_base.specs.Reads.{JudgedOutcome, FileOutcome};
ghost use Rattle.sd_run_broadcasts.specs.Field.{refused_script, script_of_file, script_or_status};

use sd_command_base::{
    LimitKind, LineCause, MOST_BOOK_BYTES, Status, Word, malformed, read_bytes, refused_line,
};
use sd_field::{ScriptFault, read_script};
use sd_ports::Depot;
use sd_spec::Event;
use sd_tree_keys::Height;
use std::alloc::Global;

/// The events of the script in the file of this argument.
pub fn read_events<D: Depot>(
    alloc: Global,
    depot: &mut D,
    word: Word<'_>,
    h: Height,
) -> Result<Vec<Event>, Status>
    ensures value { FileOutcome (λ events. events.items) (script_of_file word.entry.number h) word.entry.text.now
        (depot_state D.Depot depot.old) (depot_state D.Depot depot.new) result }
    ensures few { IfOk result (λ events. length events.items ≤ 524288) }
    ensures leaves { IfOk result (λ events. All (λ event. is_of h event ≡ true) events.items) }
{
    let bytes = read_bytes(alloc, depot, word, MOST_BOOK_BYTES, LimitKind::BookBytes)?;
    judge_script(alloc, word.number, &bytes, h)
}

/// The events of the script of these bytes, which are those of the file of argument `word`.
fn judge_script(alloc: Global, word: u8, bytes: &[u8], h: Height) -> Result<Vec<Event>, Status>
    ensures value { JudgedOutcome (λ events. events.items) (script_or_status word h bytes.now (script_of h bytes.now))
        result }
    ensures few { IfOk result (λ events. length events.items ≤ 524288) }
    ensures leaves { IfOk result (λ events. All (λ event. is_of h event ≡ true) events.items) }
{
    match read_script(alloc, bytes, h) {
        Ok(events) => Ok(events),
        Err(fault) => Err(script_fault(word, h, bytes, fault)),
    }
}

/// The status of a script of these bytes that is refused, which is in the file of argument `word`.
fn script_fault(word: u8, h: Height, bytes: &[u8], fault: ScriptFault) -> Status
    ensures { result ≡ refused_script word h bytes.now fault }
{
    let line = match fault {
        ScriptFault::Line(k) => malformed(k, bytes),
        ScriptFault::Leaf(k) => refused_line(LineCause::Leaf(h.get()), k, bytes),
        ScriptFault::Events => return Status::Limit(LimitKind::FieldEvents),
        ScriptFault::NoMemory => return Status::NoMemory,
    };
    Status::BadBook { word, line }
}
