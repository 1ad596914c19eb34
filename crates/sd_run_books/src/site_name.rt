//! Names of site files that follow each other.

ghost use Rattle.std.specs.Prelude.{◌≡◌, length, not, reverse, take_while};
ghost use Rattle.std.specs.Char.{is_ascii_digit};
ghost use Rattle.sd_base.specs.Number.{decimal_value};
ghost use Rattle.sd_run_books.specs.SiteNames.{after_number, before_number, digits_in};
ghost use Rattle.sd_run_books.specs.SiteNames.{follows as is_next, is_one_up as one_up};

use sd_base::number_after;
use sd_site_cards::MOST_WORD;

/// A name cut at its last number.
#[derive(Clone, Copy)]
struct Cut<'a> {
    before: &'a [u8],
    digits: &'a [u8],
    after: &'a [u8],
}

/// Whether the second name is the first with its last number one higher. Nothing is allocated.
#[tactic(auto, unfolding(crate::specs::SiteNames::follows))]
pub(crate) fn follows(name: &[u8], next: &[u8]) -> bool
    ensures { result ≡ is_next name.now next.now }
{
    let one = cut_name(name);
    let other = cut_name(next);
    one.before == other.before && one.after == other.after && is_one_up(one.digits, other.digits)
}

/// A name cut at its last number.
fn cut_name(name: &[u8]) -> Cut<'_>
    ensures before { result.before.now ≡ before_number name.now }
    ensures digits { result.digits.now ≡ digits_in name.now }
    ensures after { result.after.now ≡ after_number name.now }
{
    let end = name.len() - tail_len(name);
    let (front, after) = name.split_at(end);
    let begin = front.len() - digits_len(front);
    let (before, digits) = front.split_at(begin);
    Cut {
        before,
        digits,
        after,
    }
}

/// How many bytes at the end are no digits.
fn tail_len(bytes: &[u8]) -> usize
    ensures { result ≡ length (take_while (λ c. not (is_ascii_digit c)) (reverse bytes.now)) }
{
    bytes
        .iter()
        .rev()
        .take_while(|byte| !byte.is_ascii_digit())
        .count()
}

/// How many bytes at the end are digits.
fn digits_len(bytes: &[u8]) -> usize
    ensures { result ≡ length (take_while is_ascii_digit (reverse bytes.now)) }
{
    bytes
        .iter()
        .rev()
        .take_while(|byte| byte.is_ascii_digit())
        .count()
}

/// Whether the second decimal is one above the first.
fn is_one_up(digits: &[u8], next: &[u8]) -> bool
    ensures { result ≡ one_up (decimal_value digits.now) (decimal_value next.now) }
{
    match (number_after(b"", digits), number_after(b"", next)) {
        (Ok(n), Ok(m)) => n < MOST_WORD && m == n + 1,
        _ => false,
    }
}
