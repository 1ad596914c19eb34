ghost use Rattle.std.specs.Prelude.{◌≡◌, ◌+◌, ◌*◌, ◌/◌, ◌%◌, ◌^◌, ◌<◌, ◌≤◌, length};
ghost use Rattle.sd_base.specs.Bits.{field, KeepsOthers};
ghost use Rattle.sd_base.specs.Spans.{IsSpan};

use crate::word;

/// The N bits from bit AT on, where bit 0 is the top bit of the first byte (ISO/IEC 13818-1, 2.2.6).
#[inline]
#[tactic(auto, using(crate::proofs::Words::field_of_word))]
pub fn get<const AT: usize, const N: usize>(bytes: &[u8]) -> u64
    requires low { 1 ≤ N }
    requires high { N ≤ 32 }
    requires within { AT + N ≤ 8 * length bytes.now }
    ensures value { result ≡ field bytes.now AT N }
    ensures fits { result < 2 ^ N }
{
    let place = Span::of::<AT, N>();
    let word = word::read(bytes, place.first, place.count);
    word >> place.after & ((1 << N) - 1)
}

/// Writes the value into the N bits from bit AT on. Every other bit stays.
#[inline]
pub fn set<const AT: usize, const N: usize>(bytes: &mut [u8], value: u64)
    requires low { 1 ≤ N }
    requires high { N ≤ 32 }
    requires within { AT + N ≤ 8 * length bytes.old }
    requires fits { value < 2 ^ N }
    ensures value { field bytes.new AT N ≡ value }
    ensures unchanged { KeepsOthers AT N bytes.old bytes.new }
    ensures length { length bytes.new ≡ length bytes.old }
{
    let place = Span::of::<AT, N>();
    let word = word::read(bytes, place.first, place.count);
    let before = word >> (place.after + N);
    let after = word & ((1 << place.after) - 1);
    let changed = (before << N | value) << place.after | after;
    word::write(bytes, place.first, place.count, changed);
}

/// A row of fields of some bytes, each named by its place and its width in bits. It is read by
/// `fields! { bytes; pid: 11, 13; counter: 28, 4; }`, which gives a variable for each name, and written by
/// `fields! { &mut bytes; pid: 11, 13 = value; counter: 28, 4 = 0; }`.
#[macro_export]
macro_rules! fields {
    ($bytes:expr; $($name:ident: $at:literal, $width:literal;)+) => {
        $(let $name = $crate::get::<$at, $width>($bytes);)+
    };
    ($bytes:expr; $($name:ident: $at:literal, $width:literal = $value:expr;)+) => {
        $($crate::set::<$at, $width>($bytes, $value);)+
    };
}

// The bytes that a field touches, and how many bits of the last stand after it.
#[derive(Drop)]
struct Span {
    first: usize,
    count: usize,
    after: usize,
}

impl Span {
    #[inline]
    fn of<const AT: usize, const N: usize>() -> Span
        requires low { 1 ≤ N }
        requires high { N ≤ 32 }
        ensures { IsSpan AT N result.first result.count result.after }
    {
        let count = (AT % 8 + N).div_ceil(8);
        Span {
            first: AT / 8,
            count,
            after: 8 * count - AT % 8 - N,
        }
    }
}
