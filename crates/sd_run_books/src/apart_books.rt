//! Whether two books agree on the periods of both.

ghost use Rattle.std.specs.Prelude.{◌≡◌, ◌≤◌, ◌+◌, ℕ, Bool, filter, IfOk, OnOk};
ghost use Rattle.std.specs.List.{range_with_len};
ghost use Rattle.sd_book.specs.Commands.{last_period, revoked};
ghost use Rattle.sd_site_cards.specs.SiteFields.{site_fields_of};
ghost use Rattle.sd_run_books.specs.Apart.{books_clash, first_differing};

use crate::apart_sites::last_due;
use sd_base::NoMemory;
use sd_book::{Book, Periods};
use sd_command_base::{Clash, replay_from};
use sd_site_cards::Site;
use sd_tree_keys::Leaf;
use std::alloc::Global;

/// Why the books of two sites don't agree on the periods that broadcasts of both may use.
pub(crate) fn clash_of_books(
    alloc: Global,
    site: &Site,
    book: &Book,
    other: &Site,
    more: &Book,
) -> Result<Option<Clash>, NoMemory>
    requires first { book.now.height ≡ site.now.height }
    requires second { more.now.height ≡ other.now.height }
    requires heights { site.now.height ≡ other.now.height }
    ensures { IfOk result (λ clash. clash ≡ books_clash
        (record { site = site_fields_of site.now; commands = book.now.commands })
        (record { site = site_fields_of other.now; commands = more.now.commands })) }
{
    let last = book.last_period();
    let last_more = more.last_period();
    let first = site.first_period.max(other.first_period);
    let end = last_due(site, last).min(last_due(other, last_more)) + 1;
    let count = end.saturating_sub(u64::from(first)) as u32;
    let mut left = replay_from(alloc, book, first.min(last))?;
    let mut right = replay_from(alloc, more, first.min(last_more))?;
    for before in 0..count {
        let apart = next_apart(alloc, &mut left, &mut right)?;
        if let Some(leaf) = apart {
            let period = first + before;
            return Ok(Some(Clash::Books { leaf, period }));
        }
    }
    Ok(None)
}

/// The least leaf that is revoked in the next period of one of two replays alone, where both have a next one.
fn next_apart(
    alloc: Global,
    left: &mut Periods<'_>,
    right: &mut Periods<'_>,
) -> Result<Option<u32>, NoMemory>
    requires left { left.old.next ≤ last_period left.old.commands }
    requires right { right.old.next ≤ last_period right.old.commands }
    ensures value { (one other : ℕ → Bool) (n : ℕ) →
        revoked left.old.height left.old.commands left.old.next ≡ filter one (range_with_len 0 n) →
        revoked right.old.height right.old.commands right.old.next ≡ filter other (range_with_len 0 n) →
        IfOk result (λ leaf. leaf ≡ first_differing one other n) }
    ensures heights { (left.new.height ≡ left.old.height) × (right.new.height ≡ right.old.height) }
    ensures commands { (left.new.commands ≡ left.old.commands) × (right.new.commands ≡ right.old.commands) }
    ensures next { OnOk result ((left.new.next ≡ left.old.next + 1) × (right.new.next ≡ right.old.next + 1)) }
{
    let Some(a) = left.next(alloc)? else {
        unreachable!();
    };
    let Some(b) = right.next(alloc)? else {
        unreachable!();
    };
    Ok(first_apart(&a, &b))
}

/// The least leaf that one of two ascending lists has and the other doesn't: where each list is what a test lets
/// through of the numbers below n, the least of which one test says yes alone.
fn first_apart(left: &[Leaf], right: &[Leaf]) -> Option<u32>
    ensures { (one other : ℕ → Bool) (n : ℕ) → left.now ≡ filter one (range_with_len 0 n) →
        right.now ≡ filter other (range_with_len 0 n) → result ≡ first_differing one other n }
{
    let shared = left.len().min(right.len());
    for at in 0..shared {
        let u = left[at].get();
        let v = right[at].get();
        if u != v {
            return Some(u.min(v));
        }
    }
    if shared < left.len() {
        Some(left[shared].get())
    } else if shared < right.len() {
        Some(right[shared].get())
    } else {
        None
    }
}
