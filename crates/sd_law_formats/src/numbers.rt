//! Laws on big-endian numbers.

ghost use Rattle.std.specs.Prelude.{◌≡◌, ◌≤◌, ◌<◌, ◌^◌, ◌++◌, length, take};
ghost use Rattle.byteorder.specs.Endian.{big_bytes, big_number};

/// The number in two bytes is written as these bytes.
#[tactic(auto, using(sd_base::proofs::Endian::two_again))]
pub fn two_again(bytes: &[u8])
    requires { 2 ≤ length bytes.now }
    ensures { big_bytes 2 (big_number 2 bytes.now) ≡ take 2 bytes.now }
{}

/// The number in four bytes is written as these bytes.
#[tactic(auto, using(sd_base::proofs::Endian::four_again))]
pub fn four_again(bytes: &[u8])
    requires { 4 ≤ length bytes.now }
    ensures { big_bytes 4 (big_number 4 bytes.now) ≡ take 4 bytes.now }
{}

/// The number in six bytes is written as these bytes.
#[tactic(auto, using(sd_base::proofs::Endian::six_again))]
pub fn six_again(bytes: &[u8])
    requires { 6 ≤ length bytes.now }
    ensures { big_bytes 6 (big_number 6 bytes.now) ≡ take 6 bytes.now }
{}

/// A number that was written into two bytes is read again, whatever stands after them.
#[tactic(auto, using(sd_base::proofs::Endian::number_again))]
pub fn two_read(number: u16, rest: &[u8])
    ensures { big_number 2 (big_bytes 2 number ++ rest.now) ≡ number }
{}

/// A number that was written into four bytes is read again, whatever stands after them.
#[tactic(auto, using(sd_base::proofs::Endian::number_again))]
pub fn four_read(number: u32, rest: &[u8])
    ensures { big_number 4 (big_bytes 4 number ++ rest.now) ≡ number }
{}

/// A number that was written into six bytes is read again, whatever stands after them.
#[tactic(auto, using(sd_base::proofs::Endian::number_again))]
pub fn six_read(number: u64, rest: &[u8])
    requires { number < 2 ^ 48 }
    ensures { big_number 6 (big_bytes 6 number ++ rest.now) ≡ number }
{}
