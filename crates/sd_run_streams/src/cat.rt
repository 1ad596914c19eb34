ghost use Rattle.std.specs.Prelude.{◌≡◌, IfOk};
ghost use Rattle.serde_json.specs.View.{view};
ghost use Rattle.sd_run_streams.specs.TableLines.{cat_data};

use crate::ca::cas_value;
use crate::object::object_of;
use sd_psi::Cat;
use serde_json::Value;
use std::alloc::{AllocError, Global};

// What is shown of a CAT on this PID, completed by the packet of this number.
#[tactic(auto, unfolding(crate::specs::TableLines::cat_data))]
pub(crate) fn cat_value(
    alloc: Global,
    packet: u64,
    pid: u16,
    cat: &Cat,
) -> Result<Value, AllocError>
    ensures { IfOk result (λ value. view value ≡ cat_data packet pid cat.now.section.bytes.now) }
{
    let cas = cas_value(alloc, cat.descriptors())?;
    let table = Value::try_from_str(alloc, "cat")?;
    let members = vec![in alloc;
        ("ca", cas),
        ("packet", packet.into()),
        ("pid", pid.into()),
        ("table", table),
        ("version", cat.version().into()),
    ]?;
    object_of(alloc, members)
}
