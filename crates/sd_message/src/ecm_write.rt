ghost use Rattle.std.specs.Prelude.{◌≡◌, ◌^◌, ◌<◌, ◌≤◌, ◌+◌, ◌*◌, ◌++◌, length, IfSome};
ghost use Rattle.sd_packet.specs.Packing.{section_packet};
ghost use Rattle.sd_message.specs.EcmVersions.{positions_for, flags_at as flags_place, ecm_head_length};
ghost use Rattle.sd_message.specs.EcmSpelled.{place_bytes, numbers_bytes, since_bytes, word_bytes, ecm_head_bytes};
ghost use Rattle.sd_message.specs.EcmSpelled.{ecm_body};
ghost use Rattle.sd_message.specs.EcmSpelled.{ecm_section, ecm_header};
ghost use Rattle.sd_message.specs.EcmForm.{FitsEcmHead, FitsEcmFields, IsEcm};
ghost use Rattle.sd_message.specs.declared.ecm_format.TheConstants.{POSITIONS, PLACE_BYTES, PLACES_AT};

use crate::body::Body;
use crate::ecm_format::even_table_id;
use crate::ecm_part::{EcmPart, Place};
use crate::frame::pack;
use sd_packet::Packet;
use sd_section::Header;

/// The packet that is the section of this part by itself (docs/FORMATS.md, Messages).
#[tactic(auto, unfolding(crate::specs::EcmSpelled::ecm_section))]
pub fn write_ecm(part: &EcmPart, pid: u16, counter: u8) -> Packet
    requires form { IsEcm part.now }
    requires pid { pid < 8192 }
    requires counter { counter < 16 }
    ensures value { result ≡ section_packet (ecm_section part.now) pid counter }
    ensures fits { FitsEcmFields part.now }
{
    pack(&header_of(part), body_of(part).bytes(), pid, counter)
}

// The section's header.
fn header_of(part: &EcmPart) -> Header
    ensures value { result ≡ ecm_header part.now }
    ensures part { part.now.part < 2 ^ 8 }
    ensures last_part { part.now.last_part < 2 ^ 8 }
{
    Header {
        table_id: even_table_id(part.version) + (part.word % 2) as u8,
        extension: 0,
        number: part.part,
        last_number: part.last_part,
    }
}

// The section's body.
#[tactic(auto, using(crate::proofs::EcmSpelling::one_put), unfolding(crate::specs::EcmSpelled::ecm_body))]
fn body_of(part: &EcmPart) -> Body
    requires { part.now.count ≤ positions_for part.now.version }
    ensures value { result ≡ ecm_body part.now }
    ensures length { length result ≡ ecm_head_length part.now.version + PLACE_BYTES * part.now.count }
    ensures few { length result ≤ 171 }
    ensures fits { FitsEcmHead part.now }
    ensures positions { length part.now.positions ≡ POSITIONS }
{
    let mut body = head_of(part);
    for k in 0..usize::from(part.count) {
        put_place(&mut body, &part.positions[k]);
    }
    body
}

// The body before its positions.
#[tactic(auto, unfolding(crate::specs::EcmSpelled::ecm_head_bytes))]
fn head_of(part: &EcmPart) -> Body
    ensures value { result ≡ ecm_head_bytes part.now }
    ensures length { length result ≡ ecm_head_length part.now.version }
    ensures fits { FitsEcmHead part.now }
{
    let mut body = numbers_of(part);
    put_since(&mut body, part.version, part.since, part.run);
    put_word(&mut body, part);
    body
}

// The numbers with which the body begins.
#[tactic(auto, unfolding(crate::specs::EcmSpelled::numbers_bytes))]
fn numbers_of(part: &EcmPart) -> Body
    ensures value { result ≡ numbers_bytes part.now }
    ensures length { length result ≡ 16 }
    ensures number { part.now.number < 2 ^ 32 }
    ensures period { part.now.period < 2 ^ 32 }
    ensures word { part.now.word < 2 ^ 32 }
    ensures clear { part.now.clear < 2 ^ 32 }
{
    let mut body = Body::new();
    body.put(&part.number.to_be_bytes());
    body.put(&part.period.to_be_bytes());
    body.put(&part.word.to_be_bytes());
    body.put(&part.clear.to_be_bytes());
    body
}

// Puts `since` and the broadcast's name after them, where the version writes them.
#[tactic(auto, unfolding(crate::specs::EcmSpelled::since_bytes, crate::specs::EcmVersions::flags_at))]
fn put_since(body: &mut Body, version: u8, since: u32, run: Option<u32>)
    requires { length body.old ≡ 16 }
    ensures value { body.new ≡ body.old ++ since_bytes version since run }
    ensures length { length body.new ≡ flags_place version }
    ensures few { length body.new ≤ 24 }
    ensures run { IfSome run (λ run. run < 2 ^ 32) }
{
    let run = run.unwrap_or(0);
    if version == 2 || version == 3 {
        body.put(&since.to_be_bytes());
    }
    if version == 3 {
        body.put(&run.to_be_bytes());
    }
}

// Puts what stands between them and the positions.
#[tactic(auto, unfolding(crate::specs::EcmSpelled::word_bytes))]
fn put_word(body: &mut Body, part: &EcmPart)
    requires { length body.old ≤ 24 }
    ensures value { body.new ≡ body.old ++ word_bytes part.now }
    ensures length { length body.new ≡ length body.old + PLACES_AT }
    ensures wrapped { length part.now.wrapped ≡ 32 }
    ensures check { length part.now.check ≡ 16 }
{
    body.put(&[u8::from(part.closing)]);
    body.put(&part.wrapped);
    body.put(&part.check);
    body.put(&[part.count]);
}

// Puts a position after the body.
#[tactic(auto, unfolding(crate::specs::EcmSpelled::place_bytes))]
fn put_place(body: &mut Body, place: &Place)
    requires { length body.old + PLACE_BYTES ≤ 171 }
    ensures value { body.new ≡ body.old ++ place_bytes place.now }
    ensures length { length body.new ≡ length body.old + PLACE_BYTES }
{
    body.put(&place.pid.to_be_bytes());
    body.put(&place.position.to_be_bytes()[2..]);
}
