ghost use Rattle.std.specs.Prelude.{◌≡◌, ◌≢◌, ◌^◌, ◌<◌, ◌≤◌, All, length, IfErr, IfOk, string_bytes};
ghost use Rattle.std.specs.List.Sorted.{IsStrictlyIncreasing};
ghost use Rattle.sd_tree_keys.specs.declared.leaf.TheConstants.{MOST_REVOKED};
ghost use Rattle.sd_command_base.specs.Outside.{page_state};
ghost use Rattle.sd_command_base.specs.Outcome.{status_of};
ghost use Rattle.sd_command_base.specs.Prints.{PrintsWork, PrintsPiece};
ghost use Rattle.sd_command_base.specs.Periods.{listing as listing_of, period_text as text_of};

use crate::listing::Listing;
use crate::text::period_text;
use crate::{Status, print_text};
use sd_book::Book;
use sd_ports::Sink;
use sd_tree_keys::{Height, Leaf};
use std::alloc::Global;

/// Prints what is listed of each period of the book, one period after the other.
pub fn print_periods<P: Sink, L: Listing>(
    alloc: Global,
    print: &mut P,
    book: &Book,
    listing: &L,
) -> Result<(), Status>
    requires { L.fits listing.now book.now.height }
    ensures { PrintsWork (listing_of (L.sets listing.now book.now.height) (L.ends listing.now book.now.height)
        book.now.height book.now.commands)
        (page_state P.Sink print.old) (page_state P.Sink print.new) (status_of result) }
{
    let h = book.height();
    let mut periods = book.periods(alloc);
    let mut q = 0;
    while let Some(revoked) = periods.next(alloc)? {
        print_period(alloc, print, h, q, &revoked, listing)?;
        q += 1;
    }
    Ok(())
}

/// Prints period q, in which these leaves are revoked.
fn print_period<P: Sink, L: Listing>(
    alloc: Global,
    print: &mut P,
    h: Height,
    q: u32,
    revoked: &[Leaf],
    listing: &L,
) -> Result<(), Status>
    requires fits { L.fits listing.now h }
    requires leaves { All (λ u. u < 2 ^ h) revoked.now }
    requires ascending { IsStrictlyIncreasing revoked.now }
    requires few { length revoked.now ≤ MOST_REVOKED }
    ensures value { PrintsPiece
        (text_of (L.ends listing.now h) q (length revoked.now) (L.sets listing.now h revoked.now))
        (page_state P.Sink print.old) (page_state P.Sink print.new) (status_of result) }
    ensures fault { IfErr result (λ status. status ≢ Status.Done) }
{
    let text = text_of_period(alloc, h, q, revoked, listing)?;
    print_text(print, text.as_bytes())
}

/// The text of period q, in which these leaves are revoked.
fn text_of_period<L: Listing>(
    alloc: Global,
    h: Height,
    q: u32,
    revoked: &[Leaf],
    listing: &L,
) -> Result<String, Status>
    requires fits { L.fits listing.now h }
    requires leaves { All (λ u. u < 2 ^ h) revoked.now }
    requires ascending { IsStrictlyIncreasing revoked.now }
    requires few { length revoked.now ≤ MOST_REVOKED }
    ensures value { IfOk result (λ text. string_bytes text
        ≡ text_of (L.ends listing.now h) q (length revoked.now) (L.sets listing.now h revoked.now)) }
    ensures fault { IfErr result (λ status. status ≡ Status.NoMemory) }
{
    let sets = listing.listed(alloc, h, revoked)?;
    Ok(period_text(alloc, h, q, revoked.len(), &sets, listing)?)
}
