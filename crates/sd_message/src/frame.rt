ghost use Rattle.std.specs.Prelude.{ℕ, slice_index, ◌≡◌, ◌<◌, ◌≤◌, ◌↔◌, IsNone, IsSome, IsTrue, IfSome, length, take};
ghost use Rattle.std.specs.Prelude.{drop, ◌+◌, ◌++◌};
ghost use Rattle.sd_packet.specs.Header.{payload_of};
ghost use Rattle.sd_packet.specs.Packing.{section_packet};
ghost use Rattle.sd_section.specs.Header.{body_of};
ghost use Rattle.sd_section.specs.Written.{section_bytes};
ghost use Rattle.sd_message.specs.Framed.{HasPointer, IsPlainHeader, HasSection, BeginsWithSection, section_of};
ghost use Rattle.sd_message.specs.Framed.{header_of as header_of_bytes};

use sd_packet::{Packet, pack_section};
use sd_section::{Header, Section, read_one, seal};

/// The section after pointer 0 with which the payload begins, or `None` where there is none whose CRC is right and
/// whose header has each bit as this project writes it. What stands after the section isn't read.
pub fn section_in(packet: &Packet) -> Option<Section<'_>>
    ensures none { IsNone result ↔ ¬ HasSection packet.now }
    ensures some { IsSome result ↔ HasSection packet.now }
    ensures value { IfSome result (λ section. section.bytes.now ≡ section_of packet.now) }
    ensures begins { IfSome result (λ section. BeginsWithSection section.bytes.now packet.now) }
    ensures spelled { IfSome result (λ section.
        section.bytes.now ≡ section_bytes (header_of_bytes section.bytes.now) (body_of section.bytes.now)) }
{
    let section = read_one(after_pointer(packet)?).ok()?;
    if is_plain(&section) {
        Some(section)
    } else {
        None
    }
}

// The bytes after pointer 0, where a section starts in the packet.
fn after_pointer(packet: &Packet) -> Option<&[u8]>
    ensures some { IsSome result ↔ HasPointer packet.now }
    ensures value { IfSome result (λ bytes. bytes.now ≡ drop 1 (payload_of packet.now)) }
{
    match packet.payload() {
        [0, section @ ..] if packet.unit_start() => Some(section),
        _ => None,
    }
}

// Whether each bit of the header is as this project writes it.
#[tactic(auto, using(crate::proofs::Spelling::plain_spelled))]
fn is_plain(section: &Section<'_>) -> bool
    ensures plain { IsTrue result ↔ IsPlainHeader section.now.bytes.now }
    ensures spelled { IsTrue result →
        section.now.bytes.now ≡ section_bytes (header_of_bytes section.now.bytes.now) (body_of section.now.bytes.now) }
{
    let header = header_of(section).bytes(section.body().len());
    begins_with(section.whole(), header)
}

// Whether the section begins with this header.
fn begins_with(section: &[u8], header: [u8; 8]) -> bool
    requires { 8 ≤ length section.now }
    ensures value { IsTrue result ↔ (take 8 section.now ≡ header) }
    ensures bytes { (i : ℕ) → slice_index section.now i < 256 }
{
    section[..8] == header[..]
}

// What tells the section from others.
#[tactic(auto, unfolding(crate::specs::Framed::header_of))]
fn header_of(section: &Section<'_>) -> Header
    ensures { result ≡ header_of_bytes section.now.bytes.now }
{
    Header {
        table_id: section.table_id(),
        extension: section.extension(),
        number: section.number(),
        last_number: section.last_number(),
    }
}

/// The packet that is the section of this header and body by itself.
pub fn pack(header: &Header, body: &[u8], pid: u16, counter: u8) -> Packet
    requires room { length body.now ≤ 171 }
    requires pid { pid < 8192 }
    requires counter { counter < 16 }
    ensures { result ≡ section_packet (section_bytes header.now body.now) pid counter }
{
    let mut bytes = [0; 183];
    let length = body.len() + 12;
    write(&mut bytes[..length], header, body);
    pack_section(&bytes[..length], pid, counter)
}

// Writes the section of this header and body.
#[tactic(auto, using(crate::proofs::Spelling::section_laid))]
fn write(section: &mut [u8], header: &Header, body: &[u8])
    requires few { length body.now ≤ 4084 }
    requires room { length section.old ≡ length body.now + 12 }
    ensures { section.new ≡ section_bytes header.now body.now }
{
    put(section, 0, &header.bytes(body.len()));
    put(section, 8, body);
    seal(section);
}

// Copies the piece to this place.
fn put(bytes: &mut [u8], start: usize, piece: &[u8])
    requires { start + length piece.now ≤ length bytes.old }
    ensures value { bytes.new ≡ take start bytes.old ++ (piece.now ++ drop (start + length piece.now) bytes.old) }
    ensures length { length bytes.new ≡ length bytes.old }
{
    bytes[start..start + piece.len()].copy_from_slice(piece);
}
