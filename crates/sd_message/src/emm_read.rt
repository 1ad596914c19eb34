ghost use Rattle.std.specs.Prelude.{◌≡◌, ◌+◌, ◌*◌, ◌≤◌, ◌↔◌, ℕ, Some, None, Ok, Err, IsSome, IsTrue};
ghost use Rattle.std.specs.Prelude.{IfOk, IfErr, IfSome, is_some, slice_index, ◌<◌, length, replicate};
ghost use Rattle.sd_section.specs.Header.{table_id_of, extension_of, body_of};
ghost use Rattle.sd_section.specs.Written.{section_bytes};
ghost use Rattle.sd_message.specs.Framed.{section_of, BeginsWithSection};
ghost use Rattle.sd_message.specs.EmmSpelled.{listed_entries, emm_header, SpellsEmm};
ghost use Rattle.sd_message.specs.EmmForm.{FitsEmmFields, IsEmmCounted, IsSetBeside, AreSets, IsEmm, no_entry};
ghost use Rattle.sd_message.specs.EmmFields.{IsEmmTable, IsEmmSection, IsEmmPacket, set_name_of, emm_entry_in};
ghost use Rattle.sd_message.specs.EmmFields.{entries_in};
ghost use Rattle.sd_message.specs.EmmFields.{padded_entries};
ghost use Rattle.sd_message.specs.EmmFields.{is_named as is_named_table, emm_head_length as length_of_head};
ghost use Rattle.sd_message.specs.EmmFields.{emm_run_in as run_of};
ghost use Rattle.sd_message.specs.EmmFields.{emm_in};
ghost use Rattle.sd_message.specs.EmmFields.{with_entries, IsGoodEmm, BreaksEmmRule, BreaksEmmFirst};
ghost use Rattle.sd_message.specs.EmmJudged.{emm_read};
ghost use Rattle.sd_message.specs.declared.emm.Emm.{Emm};
ghost use Rattle.sd_message.specs.declared.emm_format.TheConstants.{MOST_ENTRIES, ENTRY_BYTES};

use crate::emm::{Emm, Entry, NOTHING};
use crate::emm_fault::EmmFault;
use crate::emm_format::{
    CHECK_AT, ENTRY_BYTES, MOST_ENTRIES, NAMED_TABLE_ID, RUN_AT, TABLE_ID, WRAPPED_AT, count_at,
    head_length,
};
use crate::emm_order::are_ascending;
use crate::section_in;
use sd_base::fields;
use sd_packet::Packet;
use sd_section::Section;
use sd_tree_keys::{Height, SetName};

/// The entitlements that a packet's section says, or `None` where the packet is of another kind. What stands after the
/// section isn't read.
#[inline(always)]
pub fn read_emm(h: Height, packet: &Packet) -> Result<Option<Emm>, EmmFault>
    ensures none { (result ≡ Ok None) ↔ ¬ IsEmmPacket packet.now }
    ensures fault { (fault : EmmFault) →
        (result ≡ Err fault) ↔ (IsEmmPacket packet.now × BreaksEmmFirst h (section_of packet.now) fault) }
    ensures value { result ≡ emm_read h packet.now }
    ensures sound { IfOk result (λ read. IfSome read (λ emm.
        SpellsEmm emm packet.now × (IsEmm emm × AreSets h emm.sets (listed_entries emm)))) }
    ensures complete { (emm : Emm) → FitsEmmFields emm → IsEmm emm → AreSets h emm.sets (listed_entries emm) →
        SpellsEmm emm packet.now →
        result ≡ Ok (Some emm) }
{
    let Some(section) = emm_section_in(packet) else {
        return Ok(None);
    };
    let named = is_named(&section);
    let emm = read_body(h, named, section.extension(), section.body())?;
    Ok(Some(emm))
}

// The section of entitlements with which the packet begins.
fn emm_section_in(packet: &Packet) -> Option<Section<'_>>
    ensures some { IsSome result ↔ IsEmmPacket packet.now }
    ensures value { IfSome result (λ section. section.bytes.now ≡ section_of packet.now) }
    ensures begins { IfSome result (λ section. BeginsWithSection section.bytes.now packet.now) }
    ensures spelled { IfSome result (λ section.
        section.bytes.now ≡ section_bytes
        (emm_header (table_id_of section.bytes.now) (extension_of section.bytes.now)) (body_of section.bytes.now)) }
    ensures table { IfSome result (λ section. IsEmmTable (table_id_of section.bytes.now)) }
    ensures room { IfSome result (λ section.
        length_of_head (is_named_table (table_id_of section.bytes.now)) ≤ length (body_of section.bytes.now)) }
{
    let section = section_in(packet)?;
    if is_emm(&section) {
        Some(section)
    } else {
        None
    }
}

// Whether the section is one of entitlements.
fn is_emm(section: &Section<'_>) -> bool
    ensures value { IsTrue result ↔ IsEmmSection section.now.bytes.now }
    ensures room { IsTrue result →
        length_of_head (is_named_table (table_id_of section.now.bytes.now)) ≤ length (body_of section.now.bytes.now) }
{
    let named = is_named(section);
    (named || section.table_id() == TABLE_ID)
        && section.number() == 0
        && section.last_number() == 0
        && section.body().len() >= head_length(named)
}

// Whether the section names its broadcast, where it is one of entitlements.
fn is_named(section: &Section<'_>) -> bool
    ensures { result ≡ is_named_table (table_id_of section.now.bytes.now) }
{
    section.table_id() == NAMED_TABLE_ID
}

// What the section of this index and body says, which names its broadcast or doesn't.
#[inline(always)]
#[tactic(auto, using(crate::proofs::EmmJudging::count_breaks))]
fn read_body(h: Height, named: bool, index: u16, body: &[u8]) -> Result<Emm, EmmFault>
    requires { length_of_head named ≤ length body.now }
    ensures value { IfOk result (λ emm. emm ≡ emm_in named index body.now) }
    ensures good { IfOk result (λ _. IsGoodEmm h (length body.now) (emm_in named index body.now)) }
    ensures fault { IfErr result (λ fault. BreaksEmmRule h (length body.now) (emm_in named index body.now) fault) }
    ensures bytes { (i : ℕ) → slice_index body.now i < 256 }
{
    let mut emm = read_head(named, index, body);
    if !is_counted(&emm, body.len()) {
        return Err(EmmFault::Count);
    }
    let count = usize::from(emm.count);
    let bytes = &body[head_length(named)..];
    if !read_entries(h, emm.sets, count, bytes, &mut emm.entries) {
        return Err(EmmFault::Node);
    }
    if !are_ascending(&emm.entries[..count]) {
        return Err(EmmFault::Order);
    }
    Ok(emm)
}

// What stands before the entries.
#[tactic(auto, unfolding(crate::specs::EmmFields::emm_in))]
fn read_head(named: bool, index: u16, body: &[u8]) -> Emm
    requires { length_of_head named ≤ length body.now }
    ensures { result ≡ with_entries (emm_in named index body.now) (replicate MOST_ENTRIES no_entry) }
{
    let count_at = count_at(named);
    fields! { body; period: 0, 32; sets: 32, 32; sections: 64, 16; }
    let mut check = [0; 16];
    check.copy_from_slice(&body[CHECK_AT..RUN_AT]);
    Emm {
        period: period as u32,
        sets: sets as u32,
        sections: sections as u16,
        index,
        check,
        run: run_in(named, body),
        count: body[count_at],
        entries: [NOTHING; MOST_ENTRIES],
    }
}

// The broadcast's name, where it is there.
#[tactic(auto, unfolding(crate::specs::EmmFields::emm_run_in, crate::specs::EmmFields::count_at))]
fn run_in(named: bool, body: &[u8]) -> Option<u32>
    requires { length_of_head named ≤ length body.now }
    ensures { result ≡ run_of named body.now }
{
    if named {
        fields! { body; run: 208, 32; }
        Some(run as u32)
    } else {
        None
    }
}

// Whether the numbers come to one another, and to the body's length.
#[tactic(auto, unfolding(crate::specs::Pieces::pieces_for))]
fn is_counted(emm: &Emm, length: usize) -> bool
    ensures { IsTrue result ↔
        ((length ≡ length_of_head (is_some emm.now.run) + ENTRY_BYTES * emm.now.count)
        × IsEmmCounted emm.now.sets emm.now.sections emm.now.index emm.now.count) }
{
    let most = MOST_ENTRIES as u32;
    let sections = emm.sets.div_ceil(most).max(1);
    let count = emm
        .sets
        .saturating_sub(most * u32::from(emm.index))
        .min(most);
    length == head_length(emm.run.is_some()) + ENTRY_BYTES * usize::from(emm.count)
        && u32::from(emm.sections) == sections
        && emm.index < emm.sections
        && u32::from(emm.count) == count
}

// Puts the entries in place of the first of `entries`, as long as each is a set that may stand there. Whether all are.
fn read_entries(
    h: Height,
    sets: u32,
    count: usize,
    bytes: &[u8],
    entries: &mut [Entry; MOST_ENTRIES],
) -> bool
    requires few { count ≤ MOST_ENTRIES }
    requires room { length bytes.now ≡ ENTRY_BYTES * count }
    requires none { entries.old ≡ replicate MOST_ENTRIES no_entry }
    ensures value { IsTrue result → entries.new ≡ padded_entries (entries_in count bytes.now) }
    ensures sets { IsTrue result ↔ AreSets h sets (entries_in count bytes.now) }
{
    for k in 0..count {
        let item = &bytes[ENTRY_BYTES * k..ENTRY_BYTES * k + ENTRY_BYTES];
        match read_entry(h, sets, item) {
            Some(entry) => entries[k] = entry,
            None => return false,
        }
    }
    true
}

// An entry, where it is a set that may stand there.
#[tactic(auto, unfolding(crate::specs::EmmFields::emm_entry_in))]
fn read_entry(h: Height, sets: u32, bytes: &[u8]) -> Option<Entry>
    requires { length bytes.now ≡ ENTRY_BYTES }
    ensures value { IfSome result (λ entry. entry ≡ emm_entry_in bytes.now) }
    ensures set { IsSome result ↔ IsSetBeside h sets (emm_entry_in bytes.now).name }
{
    fields! { bytes; i: 0, 32; j: 32, 32; }
    let name = name_in(h, sets, i as u32, j as u32)?;
    let mut wrapped = [0; 32];
    wrapped.copy_from_slice(&bytes[WRAPPED_AT..]);
    Some(Entry { name, wrapped })
}

// The set of this pair, where it may stand there.
#[tactic(auto, using(crate::proofs::Names::named, crate::proofs::Names::not_named))]
fn name_in(h: Height, sets: u32, i: u32, j: u32) -> Option<SetName>
    ensures value { IfSome result (λ name. name ≡ set_name_of i j) }
    ensures set { IsSome result ↔ IsSetBeside h sets (set_name_of i j) }
{
    let name = SetName::new(h, i, j)?;
    if matches!(name, SetName::Whole) && sets > 1 {
        return None;
    }
    Some(name)
}
