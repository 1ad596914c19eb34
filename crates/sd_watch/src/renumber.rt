ghost use Rattle.std.specs.Prelude.{◌≡◌};
ghost use Rattle.sd_watch.specs.Numbered.{stream_fault_at};

use sd_message::StreamFault;

/// The fault with another number of the packet that is refused. The number of a buffered packet stays.
pub fn renumber(fault: StreamFault, packet: u64) -> StreamFault
    ensures { result ≡ stream_fault_at packet fault }
{
    match fault {
        StreamFault::WrongKey {
            period,
            found,
            due,
            ..
        } => StreamFault::WrongKey {
            packet,
            period,
            found,
            due,
        },
        StreamFault::WrongWord {
            word,
            found,
            due,
            ..
        } => StreamFault::WrongWord {
            packet,
            word,
            found,
            due,
        },
        StreamFault::BadEmm(_, fault) => StreamFault::BadEmm(packet, fault),
        StreamFault::BadEcm(_, fault) => StreamFault::BadEcm(packet, fault),
        StreamFault::Parity(held) => StreamFault::Parity(held),
    }
}
