ghost use Rattle.std.specs.Prelude.{◌≡◌, IfOk, map};
ghost use Rattle.serde_json.specs.View.{view};
ghost use Rattle.sd_psi.specs.Tables.{programs_of};
ghost use Rattle.sd_run_streams.specs.TableLines.{list_data, program_data, pat_data};

use crate::object::object_of;
use sd_psi::Pat;
use serde_json::{Value, json};
use std::alloc::{AllocError, Global};

// What is shown of a PAT on this PID, completed by the packet of this number.
#[tactic(auto, unfolding(crate::specs::TableLines::pat_data))]
pub(crate) fn pat_value(
    alloc: Global,
    packet: u64,
    pid: u16,
    pat: &Pat,
) -> Result<Value, AllocError>
    ensures { IfOk result (λ value. view value ≡ pat_data packet pid pat.now.section.bytes.now) }
{
    let programs = programs_value(alloc, pat)?;
    let table = Value::try_from_str(alloc, "pat")?;
    let members = vec![in alloc;
        ("packet", packet.into()),
        ("pid", pid.into()),
        ("programs", programs),
        ("stream", pat.stream_id().into()),
        ("table", table),
        ("version", pat.version().into()),
    ]?;
    object_of(alloc, members)
}

// Its programs.
fn programs_value(alloc: Global, pat: &Pat) -> Result<Value, AllocError>
    ensures { IfOk result (λ value. view value ≡ list_data (map program_data (programs_of pat.now.section.bytes.now))) }
{
    let mut rest = pat.programs();
    let mut programs = Vec::new(alloc);
    while let Some((number, pid)) = rest.next() {
        programs.push(program_value(alloc, number, pid)?)?;
    }
    Ok(Value::Array(programs))
}

// One of them.
#[tactic(auto, unfolding(crate::specs::TableLines::program_data))]
fn program_value(alloc: Global, number: u16, pid: u16) -> Result<Value, AllocError>
    ensures { IfOk result (λ value. view value ≡ program_data (number, pid)) }
{
    json!(in alloc; {"number": number, "pid": pid})
}
