ghost use Rattle.std.specs.Prelude.{◌≡◌, IfOk, map};
ghost use Rattle.serde_json.specs.View.{view};
ghost use Rattle.sd_psi.specs.Tables.{stream_of, streams_of};
ghost use Rattle.sd_run_streams.specs.TableLines.{list_data, stream_data, pmt_data};

use crate::ca::cas_value;
use crate::object::object_of;
use sd_psi::{Pmt, Stream};
use serde_json::Value;
use std::alloc::{AllocError, Global};

// What is shown of a PMT on this PID, completed by the packet of this number.
#[tactic(auto, unfolding(crate::specs::TableLines::pmt_data))]
pub(crate) fn pmt_value(
    alloc: Global,
    packet: u64,
    pid: u16,
    pmt: &Pmt,
) -> Result<Value, AllocError>
    ensures { IfOk result (λ value. view value ≡ pmt_data packet pid pmt.now.section.bytes.now) }
{
    let cas = cas_value(alloc, pmt.descriptors())?;
    let streams = streams_value(alloc, pmt)?;
    let table = Value::try_from_str(alloc, "pmt")?;
    let members = vec![in alloc;
        ("ca", cas),
        ("packet", packet.into()),
        ("pcr", pmt.pcr().into()),
        ("pid", pid.into()),
        ("program", pmt.program().into()),
        ("streams", streams),
        ("table", table),
        ("version", pmt.version().into()),
    ]?;
    object_of(alloc, members)
}

// Its streams.
fn streams_value(alloc: Global, pmt: &Pmt) -> Result<Value, AllocError>
    ensures { IfOk result (λ value. view value ≡ list_data (map stream_data (streams_of pmt.now.section.bytes.now))) }
{
    let mut rest = pmt.streams();
    let mut streams = Vec::new(alloc);
    while let Some(stream) = rest.next() {
        streams.push(stream_value(alloc, &stream)?)?;
    }
    Ok(Value::Array(streams))
}

// One of them.
#[tactic(auto, unfolding(crate::specs::TableLines::stream_data))]
fn stream_value(alloc: Global, stream: &Stream) -> Result<Value, AllocError>
    ensures { IfOk result (λ value. view value ≡ stream_data (stream_of stream.now.bytes.now)) }
{
    let cas = cas_value(alloc, stream.descriptors())?;
    let members = vec![in alloc;
        ("ca", cas),
        ("pid", stream.pid().into()),
        ("type", stream.stream_type().into()),
    ]?;
    object_of(alloc, members)
}
