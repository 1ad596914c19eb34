ghost use Rattle.std.specs.Prelude.{◌≡◌, ◌++◌, ◌≤◌, IfOk, OnOk, map, string_bytes};
ghost use Rattle.serde_json.specs.View.{view};
ghost use Rattle.sd_run_streams.specs.TableLines.{list_data as list_of};
ghost use Rattle.sd_message.specs.EmmSpelled.{names_in};
ghost use Rattle.sd_message.specs.declared.emm_format.TheConstants.{MOST_ENTRIES};
ghost use Rattle.sd_run_streams.specs.MessageLines.{emm_data, name_data, set_word};

use crate::object::object_of;
use sd_message::{Emm, Entry};
use sd_tree_keys::SetName;
use serde_json::Value;
use std::alloc::{AllocError, Global};
use std::fmt::Write;

// What is shown of a section of entitlements on this PID, in the packet of this number.
#[tactic(auto, unfolding(crate::specs::MessageLines::emm_data))]
pub(crate) fn emm_value(
    alloc: Global,
    packet: u64,
    pid: u16,
    emm: &Emm,
) -> Result<Value, AllocError>
    requires { emm.now.count ≤ MOST_ENTRIES }
    ensures { IfOk result (λ value. view value ≡ emm_data packet pid emm.now) }
{
    let check = hex::encode(alloc, &emm.check)?;
    let names = names_value(alloc, emm.listed())?;
    let table = Value::try_from_str(alloc, "emm")?;
    let mut members = vec![in alloc;
        ("check", check.into()),
        ("index", emm.index.into()),
        ("names", names),
        ("packet", packet.into()),
        ("period", emm.period.into()),
        ("pid", pid.into()),
        ("sections", emm.sections.into()),
        ("sets", emm.sets.into()),
        ("table", table),
    ]?;
    if let Some(run) = emm.run {
        members.push(("run", run.into()))?;
        return object_of(alloc, members);
    }
    object_of(alloc, members)
}

// The names of the sets of entries.
fn names_value(alloc: Global, entries: &[Entry]) -> Result<Value, AllocError>
    ensures { IfOk result (λ value. view value ≡ list_of (map name_data (names_in entries.now))) }
{
    let mut names = Vec::new(alloc);
    for entry in entries {
        names.push(name_value(alloc, entry.name)?)?;
    }
    Ok(Value::Array(names))
}

// The name of a set.
#[tactic(auto, unfolding(crate::specs::MessageLines::name_data))]
fn name_value(alloc: Global, name: SetName) -> Result<Value, AllocError>
    ensures { IfOk result (λ value. view value ≡ name_data name) }
{
    let mut text = String::new(alloc);
    push_name(&mut text, name)?;
    Ok(Value::String(text))
}

// The name of a set, after the text.
#[tactic(auto, unfolding(crate::specs::MessageLines::set_word))]
fn push_name(text: &mut String, name: SetName) -> Result<(), AllocError>
    ensures { OnOk result (string_bytes text.new ≡ string_bytes text.old ++ set_word name) }
{
    match name {
        SetName::Whole => text.push_str("all"),
        SetName::Diff { i, j } => write!(text, "{i} {j}"),
    }
}
