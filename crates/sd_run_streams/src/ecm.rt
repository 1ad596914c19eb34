ghost use Rattle.std.specs.Prelude.{◌≡◌, ◌≤◌, ◌++◌, IfOk, OnOk, map};
ghost use Rattle.serde_json.specs.View.{view};
ghost use Rattle.sd_run_streams.specs.TableLines.{list_data as list_of};
ghost use Rattle.sd_message.specs.declared.ecm_format.TheConstants.{POSITIONS};
ghost use Rattle.sd_run_streams.specs.TableMembers.{named_data};
ghost use Rattle.sd_run_streams.specs.MessageLines.{ecm_data, place_data};
ghost use Rattle.sd_run_streams.specs.MessageMembers.{ecm_members, run_members};

use crate::object::object_of;
use sd_message::{EcmPart, Place};
use serde_json::Value;
use std::alloc::{AllocError, Global};

// What is shown of a part of a control message on this PID, in the packet of this number.
#[tactic(auto, using(crate::proofs::MessageMembers::ecm_shown))]
pub(crate) fn ecm_value(
    alloc: Global,
    packet: u64,
    pid: u16,
    part: &EcmPart,
) -> Result<Value, AllocError>
    requires { part.now.count ≤ POSITIONS }
    ensures { IfOk result (λ value. view value ≡ ecm_data packet pid part.now) }
{
    let mut members = members_of(alloc, packet, pid, part)?;
    push_run(&mut members, part.run)?;
    object_of(alloc, members)
}

// The members that each part has.
#[tactic(auto, unfolding(crate::specs::MessageMembers::ecm_members))]
fn members_of(
    alloc: Global,
    packet: u64,
    pid: u16,
    part: &EcmPart,
) -> Result<Vec<(&'static str, Value)>, AllocError>
    requires { part.now.count ≤ POSITIONS }
    ensures { IfOk result (λ members. named_data members.items ≡ ecm_members packet pid part.now) }
{
    let check = hex::encode(alloc, &part.check)?;
    let positions = places_value(alloc, part.listed())?;
    let table = Value::try_from_str(alloc, "ecm")?;
    let members = vec![in alloc;
        ("check", check.into()),
        ("clear", part.clear.into()),
        ("closing", part.closing.into()),
        ("last", part.last_part.into()),
        ("number", part.number.into()),
        ("packet", packet.into()),
        ("part", part.part.into()),
        ("period", part.period.into()),
        ("pid", pid.into()),
        ("positions", positions),
        ("since", part.since.into()),
        ("table", table),
        ("version", part.version.into()),
        ("word", part.word.into()),
    ]?;
    Ok(members)
}

// Puts the name of the run after them, where the message tells it.
fn push_run(members: &mut Vec<(&'static str, Value)>, run: Option<u32>) -> Result<(), AllocError>
    ensures { OnOk result (named_data members.new.items ≡ named_data members.old.items ++ run_members run) }
{
    if let Some(run) = run {
        members.push(("run", run.into()))?;
    }
    Ok(())
}

// The positions of PIDs.
fn places_value(alloc: Global, places: &[Place]) -> Result<Value, AllocError>
    ensures { IfOk result (λ value. view value ≡ list_of (map place_data places.now)) }
{
    let mut positions = Vec::new(alloc);
    for place in places {
        positions.push(place_value(alloc, *place)?)?;
    }
    Ok(Value::Array(positions))
}

// The position of a PID.
#[tactic(auto, unfolding(crate::specs::MessageLines::place_data))]
fn place_value(alloc: Global, place: Place) -> Result<Value, AllocError>
    ensures { IfOk result (λ value. view value ≡ place_data place) }
{
    let members = vec![in alloc;
        ("pid", place.pid.into()),
        ("position", place.position.into()),
    ]?;
    object_of(alloc, members)
}
