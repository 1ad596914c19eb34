use crate::heights::height;
use sd_book::{Book, BookFault, BookLimit, Command, Draft, Place};
use sd_tree_keys::Leaf;
use std::alloc::{AllocError, Global};
use std::fmt::Write;
use std::test::Fail;

// Books, and the leaves that are revoked in each of their periods.
static REVOKED: [(&str, &[&[u32]]); 10] = [
    ("", &[&[]]),
    ("revoke 5\n", &[&[5]]),
    ("revoke 5", &[&[5]]),
    ("revoke 5\nrevoke 5\nsubscribe 5\n", &[&[]]),
    ("revoke 0\nrevoke 1\n", &[&[0, 1]]),
    ("revoke 5\nperiod\nsubscribe 5\n", &[&[5], &[]]),
    ("period\nrevoke 5\n", &[&[], &[5]]),
    ("period\n", &[&[], &[]]),
    ("revoke 7\nrevoke 2\nsubscribe 4\nrevoke 4", &[&[2, 4, 7]]),
    (
        "revoke 6\nperiod\nperiod\nrevoke 1\nsubscribe 6\nrevoke 3\nperiod\nsubscribe 3\nrevoke 0",
        &[&[6], &[6], &[1, 3], &[0, 1]],
    ),
];

// Whether a book of height 3 has periods with these revoked leaves, each asked for alone and all in turn.
fn are_revoked(alloc: Global, text: &str, periods: &[&[u32]]) -> Result<bool, Fail> {
    let book = Book::read(alloc, text.as_bytes(), height(3)?)
        .ok()
        .ok_or("a book")?;
    if book.last_period() as usize + 1 != periods.len() {
        return Ok(false);
    }
    Ok(are_alone(alloc, &book, periods)? && are_in_turn(alloc, &book, periods)?)
}

// Whether these leaves are revoked in the periods of a book, each asked for alone.
fn are_alone(alloc: Global, book: &Book, periods: &[&[u32]]) -> Result<bool, Fail> {
    for (q, leaves) in periods.iter().enumerate() {
        if q > book.last_period() as usize || !are(&book.revoked(alloc, q as u32)?, leaves) {
            return Ok(false);
        }
    }
    Ok(true)
}

// Whether they are in its periods in turn, after which none comes.
fn are_in_turn(alloc: Global, book: &Book, periods: &[&[u32]]) -> Result<bool, Fail> {
    let mut replay = book.periods(alloc);
    for leaves in periods {
        match replay.next(alloc)? {
            Some(found) if are(&found, leaves) => {}
            _ => return Ok(false),
        }
    }
    Ok(replay.next(alloc)?.is_none() && replay.next(alloc)?.is_none())
}

// Whether leaves have these numbers.
fn are(leaves: &[Leaf], numbers: &[u32]) -> bool {
    leaves.len() == numbers.len() && leaves.iter().zip(numbers).all(|(leaf, u)| leaf.get() == *u)
}

#[test]
fn revoked_leaves(rt: HostRuntime) -> Result<(), Fail> {
    for (text, periods) in &REVOKED {
        assert!(rt; are_revoked(rt.alloc(), text, periods)?, "{text}");
    }
    Ok(())
}

#[test]
fn commands_of_each_period(rt: HostRuntime) -> Result<(), Fail> {
    let alloc = rt.alloc();
    let h = height(3)?;
    let five = Command::Revoke(Leaf::new(h, 5).ok_or("a leaf")?);
    let two = Command::Subscribe(Leaf::new(h, 2).ok_or("a leaf")?);
    let book = Book::read(
        alloc,
        b"revoke 5\nperiod\nperiod\nsubscribe 2\nrevoke 5\n",
        h,
    )
    .ok()
    .ok_or("a book")?;
    let mut place = Place::new();
    let none: &[Command] = &[];
    let periods = [
        place.next_commands(&book),
        place.next_commands(&book),
        place.next_commands(&book),
        place.next_commands(&book),
    ];
    let (first, last) = ([five], [two, five]);
    assert!(rt;
        periods
            == [
                Some(first.as_slice()),
                Some(none),
                Some(last.as_slice()),
                None
            ]
    );
    assert!(rt; place.next_period() == 3);
    Ok(())
}

/// `revoke 0`, `revoke 1` and so on, and then lines `period`.
fn text_of(alloc: Global, revokes: u32, periods: u32) -> Result<String, AllocError> {
    let mut text = String::new(alloc);
    for u in 0..revokes {
        write!(text, "revoke {u}\n")?;
    }
    for _ in 0..periods {
        text.push_str("period\n")?;
    }
    Ok(text)
}

// Books of height 3, and what is wrong with them.
static FAULTS: [(&[u8], BookFault); 9] = [
    (b"revoke 8\n", BookFault::Leaf(1)),
    (b"revoke 05\n", BookFault::Line(1)),
    (b"revoke 5 \n", BookFault::Line(1)),
    (b"revoke 5\r\n", BookFault::Line(1)),
    (b"revoke 5\nperiod\n\nrevoke 6\n", BookFault::Line(3)),
    (b"revoke 99999999999999999999\n", BookFault::Leaf(1)),
    (b"Revoke 5\n", BookFault::Line(1)),
    (b"\xff\n", BookFault::Line(1)),
    (b"revoke 1\nfoo\nrevoke 9\n", BookFault::Line(2)),
];

// A height, how many leaves are revoked before how many lines `period`, and what is wrong with the book.
static LIMITS: [(u8, u32, u32, Option<BookFault>); 5] = [
    (3, 0, 1023, None),
    (3, 0, 1024, Some(BookFault::Limit(BookLimit::Periods))),
    (17, 65_536, 1, None),
    (17, 65_537, 0, Some(BookFault::Limit(BookLimit::Revoked(0)))),
    (17, 65_537, 1, Some(BookFault::Limit(BookLimit::Revoked(0)))),
];

fn fault_of(alloc: Global, d: u8, text: &[u8]) -> Result<Option<BookFault>, Fail> {
    Ok(Book::read(alloc, text, height(d)?).err())
}

#[test]
fn faults(rt: HostRuntime) -> Result<(), Fail> {
    for (text, fault) in &FAULTS {
        assert!(rt; fault_of(rt.alloc(), 3, text)? == Some(*fault));
    }
    for (d, revokes, periods, fault) in &LIMITS {
        let text = text_of(rt.alloc(), *revokes, *periods)?;
        assert!(rt; fault_of(rt.alloc(), *d, text.as_bytes())? == *fault);
    }
    Ok(())
}

// A book of height 3 with one period, in which leaf 5 is revoked.
fn revoking(alloc: Global) -> Result<Book, Fail> {
    let h = height(3)?;
    let five = Leaf::new(h, 5).ok_or("a leaf")?;
    let mut draft = Draft::new(alloc, h)?;
    let pushed = draft.push(Command::Revoke(five));
    match draft.finish() {
        Ok(book) if pushed.is_ok() => Ok(book),
        _ => Err("a book".into()),
    }
}

// Whether a book is written as this text, from which it is read again.
fn is_written(alloc: Global, book: &Book, text: &[u8]) -> Result<bool, Fail> {
    let is_text = book.write(alloc)?.as_slice() == text;
    match Book::read(alloc, text, book.height()) {
        Ok(again) => Ok(is_text && again.commands() == book.commands()),
        Err(_) => Ok(false),
    }
}

#[test]
fn longer_books(rt: HostRuntime) -> Result<(), Fail> {
    let mut book = revoking(rt.alloc())?;
    let five = Leaf::new(book.height(), 5).ok_or("a leaf")?;
    let applied = book.apply(&[Command::Period, Command::Subscribe(five)]);
    let is_read = is_written(rt.alloc(), &book, b"revoke 5\nperiod\nsubscribe 5\n")?;
    assert!(rt; applied == Ok(()) && is_read && book.commands().len() == 3);
    Ok(())
}

#[test]
fn a_book_at_its_limit_stays(rt: HostRuntime) -> Result<(), Fail> {
    let mut book = revoking(rt.alloc())?;
    let applied = book.apply(&[Command::Period; 1024]);
    let stays = is_written(rt.alloc(), &book, b"revoke 5\n")?;
    assert!(rt; applied == Err(BookFault::Limit(BookLimit::Periods)) && stays);
    Ok(())
}
