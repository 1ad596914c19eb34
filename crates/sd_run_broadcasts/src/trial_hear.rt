ghost use Rattle.std.specs.Prelude.{[], IfOk};
ghost use Rattle.sd_receive.specs.Receiving.{HasReceived, receiver_card};
ghost use Rattle.sd_run_broadcasts.specs.Trial.{HasHeard};

use crate::receive_command::receive_all;
use crate::trial_send::{settled, wants_memory};
use sd_base::{NoMemory, Steps};
use sd_command_base::Status;
use sd_ports::{MemSink, SliceSource};
use sd_receive::Receiver;
use std::alloc::Global;
use std::sync::ledger::Ledger;

/// The number of bytes that a receiver writes if it is given the bytes `sent`, and the status with which it ends.
/// `room` is the room for what it writes, in bytes.
pub fn hear<L: Ledger>(
    alloc: Global,
    receiver: Receiver,
    sent: &[u8],
    room: usize,
    steps: &mut Steps<L>,
) -> Result<(usize, Status), NoMemory>
    requires new { HasReceived [] receiver }
    ensures { IfOk result (λ heard. HasHeard (receiver_card receiver) sent.now heard.0 heard.1) }
{
    let mut sink = MemSink::new(alloc, room, usize::MAX, Vec::new(alloc))?;
    let mut source = SliceSource::new(sent);
    let status = settled(receive_all(&mut source, &mut sink, receiver, steps));
    if wants_memory(status) {
        return Err(NoMemory);
    }
    Ok((sink.bytes().len(), status))
}
