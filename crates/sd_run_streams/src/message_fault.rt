ghost use Rattle.std.specs.Prelude.{◌≡◌, IfOk};
ghost use Rattle.serde_json.specs.View.{view};
ghost use Rattle.sd_run_streams.specs.MessageLines.{message_fault_data};

use crate::object::object_of;
use serde_json::Value;
use std::alloc::{AllocError, Global};

// What is shown of a fault of this table on this PID, in the packet of this number.
#[tactic(auto, unfolding(crate::specs::MessageLines::message_fault_data))]
pub(crate) fn fault_value(
    alloc: Global,
    fault: &str,
    table: &str,
    packet: u64,
    pid: u16,
) -> Result<Value, AllocError>
    ensures { IfOk result (λ value. view value ≡ message_fault_data fault.now table.now packet pid) }
{
    let fault = Value::try_from_str(alloc, fault)?;
    let table = Value::try_from_str(alloc, table)?;
    let members = vec![in alloc;
        ("fault", fault),
        ("packet", packet.into()),
        ("pid", pid.into()),
        ("table", table),
    ]?;
    object_of(alloc, members)
}
