ghost use Rattle.std.specs.Prelude.{◌≡◌, option_map};
ghost use Rattle.std.specs.List.{list_all};
ghost use Rattle.sd_run_books.specs.Line.{is_name, is_name_byte, account_name_in};

use arrayvec::ArrayString;
use std::str;

/// The most bytes of a name.
pub const LONGEST_NAME: usize = 32;

/// A name, whose bytes lie in the value itself.
pub(crate) type Name = ArrayString<LONGEST_NAME>;

/// The name that a text is.
#[tactic(auto, using(crate::proofs::Spellings::name_is_utf8, crate::proofs::Spellings::name_fits))]
pub(crate) fn name_in(text: &[u8]) -> Option<Name>
    ensures { option_map (λ name. name.bytes) result ≡ account_name_in text.now }
{
    if !is_name(text) {
        return None;
    }
    Name::from(str::from_utf8(text).ok()?).ok()
}

/// Whether the text is a name.
#[tactic(auto, unfolding(crate::specs::Line::is_name))]
pub(crate) fn is_name(text: &[u8]) -> bool
    ensures { result ≡ is_name text.now }
{
    !text.is_empty() && text.len() <= LONGEST_NAME && has_name_bytes(text)
}

fn has_name_bytes(text: &[u8]) -> bool
    ensures { result ≡ list_all is_name_byte text.now }
{
    text.iter().all(|byte| is_name_byte(*byte))
}

fn is_name_byte(byte: u8) -> bool
    ensures { result ≡ is_name_byte byte }
{
    byte.is_ascii_lowercase() || byte.is_ascii_digit() || byte == b'-'
}
