ghost use Rattle.std.specs.Prelude.{◌≡◌, ◌+◌, ◌<◌, ◌≤◌, ◌++◌, length, take, drop};
ghost use Rattle.sd_packet.specs.Packing.{section_header, section_packet, IsSectionPacket};

use crate::packet::{Packet, SIZE};
use sd_base::fields;

const STUFFING: u8 = 0xFF;

/// A packet that is this section by itself: unit start, pointer 0, the section, stuffing after it
/// (ISO/IEC 13818-1, 2.4.4).
#[tactic(auto, using(crate::proofs::Packets::packet_laid, crate::proofs::Packets::packed_reads))]
pub fn pack_section(section: &[u8], pid: u16, counter: u8) -> Packet
    requires some { 1 ≤ length section.now }
    requires room { length section.now ≤ 183 }
    requires pid { pid < 8192 }
    requires counter { counter < 16 }
    ensures value { result ≡ section_packet section.now pid counter }
    ensures fields { IsSectionPacket section.now pid counter result }
    ensures length { length result ≡ 188 }
{
    let mut bytes = [STUFFING; SIZE];
    let mut header = [0; 4];
    write_header(&mut header, pid, counter);
    put(&mut bytes, 0, &header);
    bytes[4] = 0;
    put(&mut bytes, 5, section);
    Packet { bytes }
}

/// Copies the piece to this place.
pub fn put(bytes: &mut [u8], start: usize, piece: &[u8])
    requires { start + length piece.now ≤ length bytes.old }
    ensures value { bytes.new ≡ take start bytes.old ++ (piece.now ++ drop (start + length piece.now) bytes.old) }
    ensures length { length bytes.new ≡ length bytes.old }
{
    bytes[start..start + piece.len()].copy_from_slice(piece);
}

// Writes the header of such a packet.
fn write_header(bytes: &mut [u8], pid: u16, counter: u8)
    requires four { length bytes.old ≡ 4 }
    requires pid { pid < 8192 }
    requires counter { counter < 16 }
    ensures { bytes.new ≡ section_header pid counter }
{
    fields! {
        bytes;
        sync_byte: 0, 8 = 0x47;
        transport_error_indicator: 8, 1 = 0;
        payload_unit_start_indicator: 9, 1 = 1;
        transport_priority: 10, 1 = 0;
        pid: 11, 13 = u64::from(pid);
        transport_scrambling_control: 24, 2 = 0;
        adaptation_field_control: 26, 2 = 0b01;
        continuity_counter: 28, 4 = u64::from(counter);
    }
}
