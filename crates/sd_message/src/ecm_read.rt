ghost use Rattle.std.specs.Prelude.{◌≡◌, ◌+◌, ◌*◌, ◌%◌, ◌<◌, ◌≤◌, ◌↔◌, ℕ, Some, None, Ok, Err, IsSome, IsTrue, IfOk};
ghost use Rattle.std.specs.Prelude.{IfErr, IfSome, slice_index, length, replicate};
ghost use Rattle.sd_section.specs.Header.{body_of};
ghost use Rattle.sd_section.specs.Written.{section_bytes};
ghost use Rattle.sd_message.specs.Framed.{section_of, header_of, BeginsWithSection};
ghost use Rattle.sd_message.specs.EcmVersions.{IsVersion, flags_at as flags_place, ecm_head_length};
ghost use Rattle.sd_message.specs.EcmVersions.{version_for};
ghost use Rattle.sd_message.specs.EcmSpelled.{SpellsPart};
ghost use Rattle.sd_message.specs.EcmForm.{FitsEcmFields, IsPositioned, ArePositioned, IsEcm, no_place};
ghost use Rattle.sd_message.specs.EcmFields.{IsEcmSection, IsEcmPacket, HasEcmCount, ecm_version_of, ecm_position_in};
ghost use Rattle.sd_message.specs.EcmFields.{ecm_positions_in};
ghost use Rattle.sd_message.specs.EcmFields.{padded_places};
ghost use Rattle.sd_message.specs.EcmFields.{from_flags, since_in as since_of, ecm_run_in as run_of, ecm_in};
ghost use Rattle.sd_message.specs.EcmFields.{with_places};
ghost use Rattle.sd_message.specs.EcmFields.{IsMatched, IsGoodEcm};
ghost use Rattle.sd_message.specs.EcmFields.{BreaksEcmRule, BreaksEcmFirst};
ghost use Rattle.sd_message.specs.EcmJudged.{ecm_read};
ghost use Rattle.sd_message.specs.declared.ecm_part.EcmPart.{EcmPart};
ghost use Rattle.sd_message.specs.declared.ecm_format.TheConstants.{POSITIONS, PLACES_AT, PLACE_BYTES};

use crate::ecm_fault::EcmFault;
use crate::ecm_format::{
    CHECK_AT, COUNT_AT, PLACE_BYTES, PLACES_AT, POSITIONS, TABLE_ID_2, TABLE_ID_3, WRAPPED_AT,
    even_table_id, flags_at, positions_a_part,
};
use crate::ecm_order::are_ascending;
use crate::ecm_part::{EcmPart, NOTHING, Place};
use crate::section_in;
use sd_base::fields;
use sd_packet::{Packet, is_positional};
use sd_section::Section;

/// The part of a control message that a packet's section is, or `None` where the packet is of another kind. What stands
/// after the section isn't read.
pub fn read_ecm(packet: &Packet) -> Result<Option<EcmPart>, EcmFault>
    ensures value { result ≡ ecm_read packet.now }
    ensures none { (result ≡ Ok None) ↔ ¬ IsEcmPacket packet.now }
    ensures fault { (fault : EcmFault) →
        (result ≡ Err fault) ↔ (IsEcmPacket packet.now × BreaksEcmFirst (section_of packet.now) fault) }
    ensures sound { IfOk result (λ read. IfSome read (λ part. SpellsPart part packet.now × IsEcm part)) }
    ensures complete { (part : EcmPart) → FitsEcmFields part → IsEcm part → SpellsPart part packet.now →
        result ≡ Ok (Some part) }
{
    let Some(section) = ecm_section_in(packet) else {
        return Ok(None);
    };
    let part = read_body(
        section.table_id(),
        section.number(),
        section.last_number(),
        section.body(),
    )?;
    Ok(Some(part))
}

// The part of a control message with which the packet begins.
fn ecm_section_in(packet: &Packet) -> Option<Section<'_>>
    ensures some { IsSome result ↔ IsEcmPacket packet.now }
    ensures value { IfSome result (λ section. section.bytes.now ≡ section_of packet.now) }
    ensures begins { IfSome result (λ section. BeginsWithSection section.bytes.now packet.now) }
    ensures spelled { IfSome result (λ section.
        section.bytes.now ≡ section_bytes (header_of section.bytes.now) (body_of section.bytes.now)) }
    ensures is { IfSome result (λ section. IsEcmSection section.bytes.now) }
    ensures room { IfSome result (λ section.
        ecm_head_length (ecm_version_of section.bytes.now) ≤ length (body_of section.bytes.now)) }
{
    let section = section_in(packet)?;
    if is_ecm(&section) {
        Some(section)
    } else {
        None
    }
}

// Whether the section is a part of a control message.
fn is_ecm(section: &Section<'_>) -> bool
    ensures value { IsTrue result ↔ IsEcmSection section.now.bytes.now }
    ensures room { IsTrue result → ecm_head_length (ecm_version_of section.now.bytes.now)
        ≤ length (body_of section.now.bytes.now) }
{
    let table_id = section.table_id();
    let version = version_in(table_id);
    let even = even_table_id(version);
    (table_id == even || table_id == even + 1)
        && section.extension() == 0
        && section.number() <= section.last_number()
        && section.body().len() >= flags_at(version) + PLACES_AT
}

// The version whose table_id this is, if it is one of them.
#[tactic(auto, unfolding(crate::specs::EcmVersions::version_for))]
fn version_in(table_id: u8) -> u8
    ensures value { result ≡ version_for table_id }
    ensures fits { IsVersion result }
{
    if table_id < TABLE_ID_2 {
        1
    } else if table_id < TABLE_ID_3 {
        2
    } else {
        3
    }
}

// What the section of this table_id, these numbers and this body says.
#[tactic(auto, using(crate::proofs::EcmJudging::count_breaks))]
fn read_body(table_id: u8, number: u8, last_number: u8, body: &[u8]) -> Result<EcmPart, EcmFault>
    requires { ecm_head_length (version_for table_id) ≤ length body.now }
    ensures value { IfOk result (λ part. part ≡ ecm_in (version_for table_id) number last_number body.now) }
    ensures good { IfOk result (λ _.
        IsGoodEcm table_id body.now (ecm_in (version_for table_id) number last_number body.now)) }
    ensures fault { IfErr result (λ fault.
        BreaksEcmRule table_id body.now (ecm_in (version_for table_id) number last_number body.now) fault) }
    ensures bytes { (i : ℕ) → slice_index body.now i < 256 }
{
    let version = version_in(table_id);
    let tail = tail_of(version, body);
    let mut part = read_head(version, number, last_number, body, tail);
    if !is_counted(&part, body.len()) {
        return Err(EcmFault::Count);
    }
    let count = usize::from(part.count);
    let Some(positions) = read_places(count, &tail[PLACES_AT..]) else {
        return Err(EcmFault::Pid);
    };
    if !are_ascending(&positions[..count]) {
        return Err(EcmFault::Order);
    }
    if !is_matched(table_id, tail[0], &part) {
        return Err(EcmFault::Mixed);
    }
    part.positions = positions;
    Ok(part)
}

// What stands in the body from the flags on.
fn tail_of(version: u8, body: &[u8]) -> &[u8]
    requires { ecm_head_length version ≤ length body.now }
    ensures value { result.now ≡ from_flags version body.now }
    ensures length { length result.now + flags_place version ≡ length body.now }
{
    &body[flags_at(version)..]
}

// What stands before the positions.
#[tactic(auto, unfolding(crate::specs::EcmFields::ecm_in))]
fn read_head(version: u8, number: u8, last_number: u8, body: &[u8], tail: &[u8]) -> EcmPart
    requires room { ecm_head_length version ≤ length body.now }
    requires tail { tail.now ≡ from_flags version body.now }
    requires long { length tail.now + flags_place version ≡ length body.now }
    ensures { result ≡ with_places (ecm_in version number last_number body.now) (replicate POSITIONS no_place) }
{
    fields! { body; ecm: 0, 32; period: 32, 32; word: 64, 32; clear: 96, 32; }
    let mut wrapped = [0; 32];
    wrapped.copy_from_slice(&tail[WRAPPED_AT..CHECK_AT]);
    let mut check = [0; 16];
    check.copy_from_slice(&tail[CHECK_AT..COUNT_AT]);
    EcmPart {
        version,
        number: ecm as u32,
        period: period as u32,
        word: word as u32,
        clear: clear as u32,
        since: since_in(version, ecm as u32, body),
        run: run_in(version, body),
        closing: tail[0] == 1,
        part: number,
        last_part: last_number,
        wrapped,
        check,
        count: tail[COUNT_AT],
        positions: [NOTHING; POSITIONS],
    }
}

// `since`, which version 1 doesn't write.
#[tactic(auto, unfolding(crate::specs::EcmFields::since_in, crate::specs::EcmVersions::flags_at))]
fn since_in(version: u8, number: u32, body: &[u8]) -> u32
    requires { ecm_head_length version ≤ length body.now }
    ensures { result ≡ since_of version number body.now }
{
    if version == 1 {
        number.saturating_sub(1)
    } else {
        fields! { body; since: 128, 32; }
        since as u32
    }
}

// The broadcast's name, which version 3 alone writes.
#[tactic(auto, unfolding(crate::specs::EcmFields::ecm_run_in, crate::specs::EcmVersions::flags_at))]
fn run_in(version: u8, body: &[u8]) -> Option<u32>
    requires { ecm_head_length version ≤ length body.now }
    ensures { result ≡ run_of version body.now }
{
    if version == 3 {
        fields! { body; run: 160, 32; }
        Some(run as u32)
    } else {
        None
    }
}

// Whether the count is what the body's length comes to, and what the part is to have.
fn is_counted(part: &EcmPart, length: usize) -> bool
    ensures value { IsTrue result ↔ HasEcmCount length part.now }
    ensures few { IsTrue result → part.now.count ≤ POSITIONS }
{
    let most = positions_a_part(part.version);
    let count = usize::from(part.count);
    length == flags_at(part.version) + PLACES_AT + PLACE_BYTES * count
        && count <= most
        && (part.part == part.last_part || count == most)
        && (part.part == 0 || count > 0)
}

// Whether the flags are good, the table_id is that of the control word's number, and `since` is before the message.
fn is_matched(table_id: u8, flags: u8, part: &EcmPart) -> bool
    ensures { IsTrue result ↔ IsMatched table_id flags part.now }
{
    flags <= 1
        && u32::from(table_id) % 2 == part.word % 2
        && (part.since < part.number || (part.since == 0 && part.number == 0))
}

// The positions, where each is that of a PID that has positions.
fn read_places(count: usize, bytes: &[u8]) -> Option<[Place; POSITIONS]>
    requires few { count ≤ POSITIONS }
    requires room { length bytes.now ≡ PLACE_BYTES * count }
    ensures value { IfSome result (λ places. places ≡ padded_places (ecm_positions_in count bytes.now)) }
    ensures places { IsSome result ↔ ArePositioned (ecm_positions_in count bytes.now) }
{
    let mut places = [NOTHING; POSITIONS];
    for k in 0..count {
        places[k] = read_place(&bytes[PLACE_BYTES * k..PLACE_BYTES * k + PLACE_BYTES])?;
    }
    Some(places)
}

// A position, where it is that of a PID that has positions.
#[tactic(auto, using(crate::proofs::Numbers::long_read), unfolding(crate::specs::EcmFields::ecm_position_in))]
fn read_place(bytes: &[u8]) -> Option<Place>
    requires { length bytes.now ≡ PLACE_BYTES }
    ensures value { IfSome result (λ place. place ≡ ecm_position_in bytes.now) }
    ensures place { IsSome result ↔ IsPositioned (ecm_position_in bytes.now) }
{
    fields! { bytes; pid: 0, 16; high: 16, 16; low: 32, 32; }
    let position = high << 32 | low;
    let pid = pid as u16;
    if is_positional(pid) {
        Some(Place { pid, position })
    } else {
        None
    }
}
