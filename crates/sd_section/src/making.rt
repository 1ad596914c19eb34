ghost use Rattle.std.specs.Prelude.{◌≡◌, ◌<◌, ◌≤◌, ◌-◌, if◌then◌else◌, slice_range, None, IfSome, IsNone, nat_lt, not};
ghost use Rattle.std.specs.Prelude.{◌&&◌, [], length, take, drop, vec_capacity};
ghost use Rattle.sd_section.specs.Header.{longest};
ghost use Rattle.sd_section.specs.Assembled.{cut_of, starts as starts_of, with_section, tail_of, is_last};
ghost use Rattle.sd_section.specs.Assembled.{is_next as is_next_of};
ghost use Rattle.sd_section.specs.OneMore.{cut_more, cut_of_section, assembler_state, HasSectionRoom, tail_with};
ghost use Rattle.sd_section.specs.OneMore.{fresh_with, still_making};

use crate::begun::{Begun, judge};
use crate::holds::Holds;
use crate::limits::LONGEST;

const STUFFING: u8 = 0xFF;

/// Adds bytes to the partial section, if there is one. Whether it is whole now.
pub fn add(making: &mut Vec<u8>, bytes: &[u8]) -> bool
    requires room { longest ≤ vec_capacity making.old }
    requires short { length making.old.items ≤ longest }
    ensures value { cut_of_section result making.new.items ≡ cut_more making.old.items bytes.now }
    ensures room { longest ≤ vec_capacity making.new }
    ensures short { length making.new.items ≤ longest }
{
    if making.is_empty() {
        return false;
    }
    let room = LONGEST - making.len();
    let part = &bytes[..bytes.len().min(room)];
    making.extend_from_slice(part).unwrap();
    match judge(making) {
        Begun::Overlong => making.clear(),
        Begun::Whole(length) => {
            making.truncate(length);
            return true;
        }
        Begun::Part => {}
    }
    false
}

/// Whether a section starts with these bytes: there is one, and it isn't stuffing.
pub fn starts(bytes: &[u8]) -> bool
    ensures { result ≡ starts_of bytes.now }
{
    match bytes {
        [] | [STUFFING, ..] => false,
        _ => true,
    }
}

/// How long the section is with which the bytes begin, where all of it is there.
pub fn whole_length(bytes: &[u8]) -> Option<usize>
    ensures none { IsNone result → (cut_of bytes.now []).sections ≡ [] }
    ensures some { IfSome result (λ n.
        cut_of bytes.now [] ≡ with_section (take n bytes.now) (cut_of (drop n bytes.now) [])) }
    ensures within { IfSome result (λ n. n ≤ length bytes.now) }
{
    if !starts(bytes) {
        return None;
    }
    match judge(bytes) {
        Begun::Whole(whole) => Some(whole),
        Begun::Overlong | Begun::Part => None,
    }
}

/// What of the bytes is a partial section, where no section in them is whole.
fn left_in(bytes: &[u8]) -> &[u8]
    requires { (cut_of bytes.now []).sections ≡ [] }
    ensures value { result.now ≡ (cut_of bytes.now []).making }
    ensures length { length result.now ≤ length bytes.now }
{
    if !starts(bytes) {
        return &[];
    }
    match judge(bytes) {
        Begun::Part => bytes,
        Begun::Overlong | Begun::Whole(_) => &[],
    }
}

/// Puts the partial section into the buffer: what it holds of a section, and the bytes that weren't
/// looked at.
pub fn gather(buffer: &mut Vec<u8>, holds: Holds, payload: &[u8; 184], at: usize, end: usize)
    requires room { longest ≤ vec_capacity buffer.old }
    requires ordered { at ≤ end }
    requires within { end ≤ 184 }
    requires short { HasSectionRoom holds (length buffer.old.items) (end - at) }
    requires lent { (assembler_state holds buffer.old.items (cut_of (slice_range payload.now at end) []) None).waiting
        ≡ [] }
    ensures value { buffer.new.items ≡
        (assembler_state holds buffer.old.items (cut_of (slice_range payload.now at end) []) None).making }
    ensures room { longest ≤ vec_capacity buffer.new }
    ensures short { length buffer.new.items ≤ longest }
{
    if !matches!(holds, Holds::Making) {
        buffer.clear();
    }
    buffer
        .extend_from_slice(left_in(part(payload, at, end)))
        .unwrap();
}

/// Leaves the buffer as it is, or empties it.
pub fn keep_if(buffer: &mut Vec<u8>, kept: bool)
    requires room { longest ≤ vec_capacity buffer.old }
    requires short { length buffer.old.items ≤ longest }
    ensures value { buffer.new.items ≡ (if kept then buffer.old.items else []) }
    ensures room { longest ≤ vec_capacity buffer.new }
    ensures short { length buffer.new.items ≤ longest }
{
    if !kept {
        buffer.clear();
    }
}

/// Adds the bytes of a payload that go to the partial section, if there is one. Whether it is whole now.
/// With unit start it is given up if it isn't.
pub fn go_on(buffer: &mut Vec<u8>, unit_start: bool, payload: &[u8]) -> bool
    requires room { longest ≤ vec_capacity buffer.old }
    requires short { length buffer.old.items ≤ longest }
    requires some { 0 < length payload.now }
    ensures sections { (cut_of_section result buffer.new.items).sections
        ≡ (cut_more buffer.old.items (tail_with unit_start payload.now)).sections }
    ensures making { (cut_of_section result buffer.new.items).making ≡ still_making unit_start buffer.old.items
        payload.now }
    ensures room { longest ≤ vec_capacity buffer.new }
    ensures short { length buffer.new.items ≤ longest }
{
    if !unit_start {
        return add(buffer, payload);
    }
    let whole = add(buffer, tail_in(payload));
    keep_if(buffer, whole);
    whole
}

// The bytes as many as the pointer says, or none where that passes the payload.
fn tail_in(payload: &[u8]) -> &[u8]
    requires { 0 < length payload.now }
    ensures { result.now ≡ tail_of payload.now }
{
    let pointer = usize::from(payload[0]);
    if pointer < payload.len() {
        &payload[1..1 + pointer]
    } else {
        &[]
    }
}

/// The bytes of a payload in which sections start.
pub fn fresh_in(unit_start: bool, payload: &[u8]) -> &[u8]
    requires { 0 < length payload.now }
    ensures value { result.now ≡ fresh_with unit_start payload.now }
    ensures length { length result.now ≤ length payload.now }
{
    let pointer = usize::from(payload[0]);
    if unit_start && pointer < payload.len() {
        &payload[pointer + 1..]
    } else {
        &[]
    }
}

/// Whether there is a payload, and the counter isn't the last one.
pub fn is_taken(counter: u8, payload: &[u8], last: Option<u8>) -> bool
    ensures { result ≡ (nat_lt 0 (length payload.now) && not (is_last counter last)) }
{
    match last {
        Some(last) => !payload.is_empty() && last != counter,
        None => !payload.is_empty(),
    }
}

/// Whether the counter is the one after the last.
pub fn is_next(counter: u8, last: Option<u8>) -> bool
    ensures { result ≡ is_next_of counter last }
{
    match last {
        Some(last) => last.wrapping_add(1) % 16 == counter,
        None => false,
    }
}

/// A part of a payload.
pub fn part(payload: &[u8; 184], at: usize, end: usize) -> &[u8]
    requires ordered { at ≤ end }
    requires within { end ≤ 184 }
    ensures value { result.now ≡ slice_range payload.now at end }
    ensures length { length result.now ≡ end - at }
{
    &payload[at..end]
}

/// Stores bytes from the first place on.
pub fn store(payload: &mut [u8; 184], bytes: &[u8])
    requires { length bytes.now ≤ 184 }
    ensures { slice_range payload.new 0 (length bytes.now) ≡ bytes.now }
{
    payload[..bytes.len()].copy_from_slice(bytes);
}
