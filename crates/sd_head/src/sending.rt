ghost use Rattle.std.specs.Prelude.{◌≡◌, ◌+◌, ◌%◌, ◌<◌, ◌≤◌, OnOk, length};
ghost use Rattle.std.specs.List.{concat};
ghost use Rattle.sd_base.specs.Count.{HasCause};
ghost use Rattle.sd_engine.specs.Stage.{sink_state_of};
ghost use Rattle.sd_message.specs.declared.ecm_format.TheConstants.{MOST_PLACES};
ghost use Rattle.sd_message.specs.EcmVersions.{IsVersion, IsNamed, IsSince};
ghost use Rattle.sd_message.specs.EcmForm.{ArePositioned, ArePidsAscending, AreShort};
ghost use Rattle.sd_message.specs.EcmParts.{message_of, parts_of};
ghost use Rattle.sd_head.specs.Kept.{AreAlikeButCounters};
ghost use Rattle.sd_head.specs.Sending.{SendsBytes, counter_after, with_counters, packed_part, recounted};

use crate::counter::Counter;
use sd_message::{EcmHead, EcmPart, Place, part_count, write_ecm};
use sd_packet::{Packet, SIZE};
use sd_ports::{PortFault, Sink, write_all};

/// Sends the packet under the next counter.
pub fn send_counted<K: Sink>(
    out: &mut K,
    packet: &Packet,
    counter: &mut Counter,
) -> Result<(), PortFault>
    ensures value { SendsBytes (sink_state_of K.Sink out.old) (sink_state_of K.Sink out.new)
        (recounted packet.now counter.old) result }
    ensures next { counter.new ≡ (counter.old + 1) % 16 }
    ensures cause { HasCause (K.faults out.old) (K.faults out.new) result }
{
    let mut bytes = *packet.bytes();
    bytes[3] = 0x10 + counter.take();
    write_all(out, &bytes)
}

/// Sends the packets one after the other, each under the next counter, which is put into it.
#[tactic(auto, using(crate::proofs::Numbering::flattened_sent))]
pub fn send_all<K: Sink>(
    out: &mut K,
    packets: &mut [[u8; SIZE]],
    counter: &mut Counter,
) -> Result<(), PortFault>
    ensures value { SendsBytes (sink_state_of K.Sink out.old) (sink_state_of K.Sink out.new)
        (concat (with_counters recounted counter.old packets.old)) result }
    ensures next { OnOk result (counter.new ≡ counter_after counter.old (length packets.old)) }
    ensures alike { AreAlikeButCounters packets.new packets.old }
    ensures cause { HasCause (K.faults out.old) (K.faults out.new) result }
{
    number(packets, counter);
    write_all(out, packets.as_flattened())
}

// Puts the next counters into the packets.
fn number(packets: &mut [[u8; SIZE]], counter: &mut Counter)
    ensures packets { packets.new ≡ with_counters recounted counter.old packets.old }
    ensures next { counter.new ≡ counter_after counter.old (length packets.old) }
    ensures alike { AreAlikeButCounters packets.new packets.old }
{
    for i in 0..packets.len() {
        packets[i][3] = 0x10 + counter.take();
    }
}

/// Sends the parts of a control message one after the other, each under the next counter.
pub fn send_message<K: Sink>(
    out: &mut K,
    head: &EcmHead,
    places: &[Place],
    pid: u16,
    counter: &mut Counter,
) -> Result<(), PortFault>
    requires pid { pid < 8192 }
    requires version { IsVersion head.now.version }
    requires named { IsNamed head.now.version head.now.run }
    requires since { IsSince head.now.version head.now.number head.now.since }
    requires few { length places.now ≤ MOST_PLACES }
    requires positioned { ArePositioned places.now }
    requires ascending { ArePidsAscending places.now }
    requires short { AreShort places.now }
    ensures value { SendsBytes (sink_state_of K.Sink out.old) (sink_state_of K.Sink out.new)
        (concat (with_counters (packed_part pid) counter.old (parts_of (message_of head.now places.now)))) result }
    ensures next { OnOk result
        (counter.new ≡ counter_after counter.old (length (parts_of (message_of head.now places.now)))) }
    ensures cause { HasCause (K.faults out.old) (K.faults out.new) result }
{
    for number in 0..part_count(head.version, places.len()) {
        let part = EcmPart::of_message(head, places, number);
        send(out, &write_ecm(&part, pid, counter.take()))?;
    }
    Ok(())
}

/// Sends the packet.
pub fn send<K: Sink>(out: &mut K, packet: &Packet) -> Result<(), PortFault>
    ensures value { SendsBytes (sink_state_of K.Sink out.old) (sink_state_of K.Sink out.new) packet.now result }
    ensures cause { HasCause (K.faults out.old) (K.faults out.new) result }
{
    write_all(out, packet.bytes())
}
