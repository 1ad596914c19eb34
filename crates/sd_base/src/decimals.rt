ghost use Rattle.std.specs.Prelude.{◌≡◌, true, Some};
ghost use Rattle.std.specs.Char.{is_ascii_digit};
ghost use Rattle.std.specs.List.{list_all};
ghost use Rattle.std.specs.Str.{all_ascii_digits};
ghost use Rattle.std.specs.Str.Parse.{digits_value};
ghost use Rattle.sd_base.specs.Number.{decimal_after, decimal_value, fitting_u32, is_decimal};

/// Why a line has no number of 32 bits.
#[derive(Clone, Copy, PartialEq, Eq)]
pub enum NumberFault {
    /// The line isn't the word and a decimal.
    Malformed,
    /// It is, and the number is 2^32 or more.
    TooLarge,
}

/// The number on a line that is the word and a decimal, and nothing else.
#[tactic(auto, unfolding(crate::specs::Number::rest_after))]
pub fn number_after(word: &[u8], line: &[u8]) -> Result<u32, NumberFault>
    ensures { result ≡ fitting_u32 (decimal_after word.now line.now) }
{
    let digits = line.strip_prefix(word).ok_or(NumberFault::Malformed)?;
    decimal(digits)
}

/// The number that a decimal says.
#[tactic(auto, unfolding(crate::specs::Number::decimal_value))]
fn decimal(text: &[u8]) -> Result<u32, NumberFault>
    ensures { result ≡ fitting_u32 (decimal_value text.now) }
{
    if is_decimal(text) {
        value(text)
    } else {
        Err(NumberFault::Malformed)
    }
}

#[tactic(auto, using(crate::proofs::Digits::each_is_digit))]
fn is_decimal(text: &[u8]) -> bool
    ensures { result ≡ is_decimal text.now }
{
    !text.is_empty() && is_digits(text) && (text[0] != b'0' || text.len() == 1)
}

fn is_digits(text: &[u8]) -> bool
    ensures { result ≡ list_all is_ascii_digit text.now }
{
    text.iter().all(|byte| byte.is_ascii_digit())
}

#[tactic(auto, using(crate::proofs::Digits::digit_within, crate::proofs::Digits::value_more, crate::proofs::Digits::value_at_least))]
fn value(digits: &[u8]) -> Result<u32, NumberFault>
    requires { all_ascii_digits digits.now ≡ true }
    ensures { result ≡ fitting_u32 (Some (digits_value 10 digits.now)) }
{
    let mut value: u64 = 0;
    for digit in digits {
        value = value * 10 + u64::from(digit - b'0');
        if value > u64::from(u32::MAX) {
            return Err(NumberFault::TooLarge);
        }
    }
    Ok(value as u32)
}
