//! What reading and writing fields come to, for crates that do both.

ghost use Rattle.std.specs.Prelude.{◌≡◌, ◌+◌, ◌*◌, ◌^◌, ◌<◌, ◌≤◌, ℕ, List, length, slice_index};
ghost use Rattle.sd_base.specs.Bits.{bit, field, AreApart, KeepsOthers};

use sd_base::{fields, get, set};

/// What was written into a field is read from it.
pub fn get_after_set<const AT: usize, const N: usize>(bytes: &mut [u8], value: u64) -> u64
    requires low { 1 ≤ N }
    requires high { N ≤ 32 }
    requires within { AT + N ≤ 8 * length bytes.old }
    requires fits { value < 2 ^ N }
    ensures value { result ≡ value }
    ensures field { field bytes.new AT N ≡ value }
    ensures unchanged { KeepsOthers AT N bytes.old bytes.new }
{
    set::<AT, N>(bytes, value);
    get::<AT, N>(bytes)
}

/// To write into a field what was read from it changes nothing.
#[tactic(auto, using(sd_base::proofs::Same::same_bytes))]
pub fn set_of_get<const AT: usize, const N: usize>(bytes: &mut [u8])
    requires low { 1 ≤ N }
    requires high { N ≤ 32 }
    requires within { AT + N ≤ 8 * length bytes.old }
    ensures { bytes.new ≡ bytes.old }
{
    let value = get::<AT, N>(bytes);
    set::<AT, N>(bytes, value);
}

/// A row of fields gives each by its place and width.
pub fn a_row_is_read(bytes: &[u8]) -> (u64, u64)
    requires { 4 ≤ length bytes.now }
    ensures first { result.0 ≡ field bytes.now 11 13 }
    ensures second { result.1 ≡ field bytes.now 28 4 }
{
    fields! { bytes; first: 11, 13; second: 28, 4; }
    (first, second)
}

/// A row of fields writes each value into its place, and leaves every other bit as it was.
#[tactic(auto, using(sd_base::proofs::Same::first_stays, sd_base::proofs::Same::both_keep))]
pub fn a_row_is_written(bytes: &mut [u8], first: u64, second: u64)
    requires long { 4 ≤ length bytes.old }
    requires first { first < 2 ^ 13 }
    requires second { second < 2 ^ 4 }
    ensures first { field bytes.new 11 13 ≡ first }
    ensures second { field bytes.new 28 4 ≡ second }
    ensures unchanged { (k : ℕ) → AreApart 11 13 k 1 → AreApart 28 4 k 1 → bit bytes.new k ≡ bit bytes.old k }
    ensures length { length bytes.new ≡ length bytes.old }
{
    fields! { bytes; first: 11, 13 = first; second: 28, 4 = second; }
}

/// A field that stands apart from a written one is as it was, and so is a byte.
pub fn apart_stays()
    ensures field { (at n other width : ℕ) (old new : List ℕ) → KeepsOthers at n old new →
        AreApart at n other width → field new other width ≡ field old other width }
    ensures byte { (at n p : ℕ) (old new : List ℕ) → KeepsOthers at n old new →
        AreApart at n (8 * p) 8 → slice_index old p < 256 → slice_index new p < 256 →
        slice_index new p ≡ slice_index old p }
{}

/// Eight bits from a byte's first on are the byte.
#[tactic(auto, using(sd_base::proofs::Words::byte_field))]
pub fn byte_is_field()
    ensures { (bytes : List ℕ) (p : ℕ) → slice_index bytes p < 256 → field bytes (8 * p) 8 ≡ slice_index bytes p }
{}
