use crate::ascending::covered;
use crate::names::{closure, names};
use sd_book::{Book, Periods};
use sd_tree_keys::{Height, Name, SetName};
use std::alloc::{AllocError, Global};
use std::test::*;

// What follows from the names of these leaves together.
fn pooled(alloc: Global, leaves: &[u32]) -> Option<Vec<Name>> {
    let mut held = Vec::new(alloc);
    for u in leaves {
        for name in names(alloc, 2, *u)?.iter() {
            held.push(*name).ok()?;
        }
    }
    closure(alloc, &held).ok()
}

// Whether a period's key follows: that of one of its sets is made from what the closure has.
fn has_key(closure: &[Name], sets: &[SetName]) -> bool {
    for set in sets {
        let source = match *set {
            SetName::Whole => Name::Whole,
            SetName::Diff { i, j } => Name::Pair { i, w: j },
        };
        if closure.contains(&source) {
            return true;
        }
    }
    false
}

// A command on a leaf.
#[derive(Clone, Copy)]
struct Order {
    revokes: bool,
    leaf: u32,
}

impl Order {
    // Its line of a book.
    fn line(&self, alloc: Global) -> Result<String, AllocError> {
        let leaf = self.leaf;
        if self.revokes {
            return format!(in alloc; "revoke {leaf}\n");
        }
        format!(in alloc; "subscribe {leaf}\n")
    }
}

// A book of two periods and two commands: its Period stands after so many of them.
#[derive(Clone, Copy)]
struct Orders {
    first: Order,
    second: Order,
    before: u32,
}

impl Orders {
    // The text of the book.
    fn text(&self, alloc: Global) -> Result<String, AllocError> {
        let first = self.first.line(alloc)?;
        let second = self.second.line(alloc)?;
        match self.before {
            0 => format!(in alloc; "period\n{first}{second}"),
            1 => format!(in alloc; "{first}period\n{second}"),
            _ => format!(in alloc; "{first}{second}period\n"),
        }
    }

    // Whether the last command on the leaf up to the end of the period is a revoke.
    fn is_revoked(&self, q: u32, u: u32) -> bool {
        let has_first = q == 1 || self.before >= 1;
        let has_second = q == 1 || self.before >= 2;
        if has_second && self.second.leaf == u {
            return self.second.revokes;
        }
        has_first && self.first.leaf == u && self.first.revokes
    }

    // Whether some of the leaves isn't revoked in the period.
    fn leaves_some(&self, q: u32, leaves: &[u32]) -> bool {
        for u in leaves {
            if !self.is_revoked(q, *u) {
                return true;
            }
        }
        false
    }

    // The book.
    fn book(&self, alloc: Global) -> Option<Book> {
        let text = self.text(alloc).ok()?;
        Book::read(alloc, text.as_bytes(), Height::new(2)?).ok()
    }

    // The sets of both periods.
    fn sets(&self, alloc: Global) -> Option<(Vec<SetName>, Vec<SetName>)> {
        let book = self.book(alloc)?;
        let mut replay = book.periods(alloc);
        let first = next_sets(alloc, book.height(), &mut replay)?;
        Some((first, next_sets(alloc, book.height(), &mut replay)?))
    }
}

// The sets of the next period of a book.
fn next_sets(alloc: Global, h: Height, replay: &mut Periods) -> Option<Vec<SetName>> {
    let revoked = replay.next(alloc).ok()??;
    covered(alloc, h, &revoked)
}

// Whether in each book of these commands the leaves, of which this is the closure, know the key of just the periods in
// which one of them isn't revoked.
fn agree(
    alloc: Global,
    first: Order,
    second: Order,
    leaves: &[u32],
    closure: &[Name],
) -> Option<bool> {
    for before in 0..3 {
        let orders = Orders {
            first,
            second,
            before,
        };
        let sets = orders.sets(alloc)?;
        if has_key(closure, &sets.0) != orders.leaves_some(0, leaves)
            || has_key(closure, &sets.1) != orders.leaves_some(1, leaves)
        {
            return Some(false);
        }
    }
    Some(true)
}

// All commands on the leaves of a tree of height 2.
fn all_orders(alloc: Global) -> Result<Vec<Order>, AllocError> {
    let mut orders = Vec::new(alloc);
    for leaf in 0..4 {
        orders.push(Order {
            revokes: false,
            leaf,
        })?;
        orders.push(Order {
            revokes: true,
            leaf,
        })?;
    }
    Ok(orders)
}

static COALITIONS: [&[u32]; 11] = [
    &[],
    &[0],
    &[1],
    &[2],
    &[3],
    &[0, 1],
    &[0, 2],
    &[0, 3],
    &[1, 2],
    &[1, 3],
    &[2, 3],
];

// Whether these leaves know what they should in each book of two of these commands.
fn agree_in_all(alloc: Global, orders: &[Order], leaves: &[u32]) -> Option<bool> {
    let closure = pooled(alloc, leaves)?;
    for first in orders {
        for second in orders {
            if !agree(alloc, *first, *second, leaves, &closure)? {
                return Some(false);
            }
        }
    }
    Some(true)
}

#[test]
fn pooled_cards_of_all_small_books(rt: HostRuntime) -> Result<(), AllocError> {
    let orders = all_orders(rt.alloc())?;
    for leaves in &COALITIONS {
        let agreed = agree_in_all(rt.alloc(), &orders, leaves);
        assert!(rt; agreed == Some(true), "{leaves:?}");
    }
    Ok(())
}
