ghost use Rattle.std.specs.Prelude.{◌≡◌, ◌^◌, ◌<◌, ◌≤◌, ◌+◌, ◌*◌, ◌++◌, length, is_some, IfSome};
ghost use Rattle.std.specs.Int.{w32, to_be_bytes};
ghost use Rattle.sd_packet.specs.Packing.{section_packet};
ghost use Rattle.sd_message.specs.EmmSpelled.{listed_entries, entry_bytes, name_bytes, run_bytes, emm_head_bytes};
ghost use Rattle.sd_message.specs.EmmSpelled.{emm_body, emm_section, table_id_for};
ghost use Rattle.sd_message.specs.EmmFields.{emm_head_length, count_at as count_place};
ghost use Rattle.sd_message.specs.declared.emm_format.TheConstants.{MOST_ENTRIES, ENTRY_BYTES};
ghost use Rattle.sd_message.specs.EmmForm.{AreWrapped, FitsEmmHead, FitsEmmFields, IsEmm};

use crate::body::Body;
use crate::emm::{Emm, Entry};
use crate::emm_format::{NAMED_TABLE_ID, TABLE_ID};
use crate::frame::pack;
use sd_packet::Packet;
use sd_section::Header;
use sd_tree_keys::SetName;

/// The packet that is the section of these entitlements by itself (docs/FORMATS.md, Messages).
#[tactic(auto, unfolding(crate::specs::EmmSpelled::emm_section))]
pub fn write_emm(emm: &Emm, pid: u16, counter: u8) -> Packet
    requires form { IsEmm emm.now }
    requires pid { pid < 8192 }
    requires counter { counter < 16 }
    ensures value { result ≡ section_packet (emm_section emm.now) pid counter }
    ensures fits { FitsEmmFields emm.now }
{
    let header = Header {
        table_id: table_id_of(emm.run),
        extension: emm.index,
        number: 0,
        last_number: 0,
    };
    pack(&header, body_of(emm).bytes(), pid, counter)
}

// The section's table_id, by whether it names its broadcast.
fn table_id_of(run: Option<u32>) -> u8
    ensures { result ≡ table_id_for run }
{
    match run {
        None => TABLE_ID,
        Some(_) => NAMED_TABLE_ID,
    }
}

// The section's body.
#[tactic(auto, using(crate::proofs::EmmSpelling::one_put, crate::proofs::EmmSpelling::none_wrapped, crate::proofs::EmmSpelling::one_wrapped), unfolding(crate::specs::EmmSpelled::emm_body))]
fn body_of(emm: &Emm) -> Body
    requires { emm.now.count ≤ MOST_ENTRIES }
    ensures value { result ≡ emm_body emm.now }
    ensures length { length result ≡ emm_head_length (is_some emm.now.run) + ENTRY_BYTES * emm.now.count }
    ensures few { length result ≤ 151 }
    ensures head { FitsEmmHead emm.now }
    ensures wrapped { AreWrapped (listed_entries emm.now) }
{
    let mut body = head_of(emm);
    for k in 0..usize::from(emm.count) {
        put_entry(&mut body, &emm.entries[k]);
    }
    body
}

// The body before its entries.
#[tactic(auto, unfolding(crate::specs::EmmSpelled::emm_head_bytes))]
fn head_of(emm: &Emm) -> Body
    ensures value { result ≡ emm_head_bytes emm.now }
    ensures length { length result ≡ emm_head_length (is_some emm.now.run) }
    ensures few { length result ≤ 31 }
    ensures fits { FitsEmmHead emm.now }
{
    let mut body = Body::new();
    body.put(&emm.period.to_be_bytes());
    body.put(&emm.sets.to_be_bytes());
    body.put(&emm.sections.to_be_bytes());
    body.put(&emm.check);
    put_run(&mut body, emm.run);
    body.put(&[emm.count]);
    body
}

// Puts the broadcast's name after the body, where there is one.
#[tactic(auto, unfolding(crate::specs::EmmFields::count_at))]
fn put_run(body: &mut Body, run: Option<u32>)
    requires { length body.old ≡ 26 }
    ensures value { body.new ≡ body.old ++ run_bytes run }
    ensures length { length body.new ≡ count_place (is_some run) }
    ensures few { length body.new ≤ 30 }
    ensures fits { IfSome run (λ run. run < 2 ^ 32) }
{
    if let Some(run) = run {
        body.put(&run.to_be_bytes());
    }
}

// Puts an entry after the body.
#[tactic(auto, using(crate::proofs::EmmSpelling::put_after), unfolding(crate::specs::EmmSpelled::entry_bytes))]
fn put_entry(body: &mut Body, entry: &Entry)
    requires { length body.old + ENTRY_BYTES ≤ 171 }
    ensures value { body.new ≡ body.old ++ entry_bytes entry.now }
    ensures length { length body.new ≡ length body.old + ENTRY_BYTES }
    ensures wrapped { length entry.now.wrapped ≡ 32 }
{
    let (i, j) = pair_of(entry.name);
    body.put(&i.to_be_bytes());
    body.put(&j.to_be_bytes());
    body.put(&entry.wrapped);
}

// The numbers of the set: both are 0 for the whole set.
fn pair_of(name: SetName) -> (u32, u32)
    ensures { to_be_bytes w32 result.0 ++ to_be_bytes w32 result.1 ≡ name_bytes name }
{
    match name {
        SetName::Whole => (0, 0),
        SetName::Diff { i, j } => (i, j),
    }
}
