use sd_command_base::{
    OutCause, Status, Word, begins_with_book, ends_lines, is_book, make_new, read_longer, read_own,
};
use sd_ports_memory::MemDepot;
use sd_site_cards::BookLine;
use sd_tree_keys::Height;
use std::alloc::{AllocError, Global};

// SHA-256, by sha256sum, of nothing, of "revoke 5" with a line feed, and of "revoke 5" without one.
static DIGESTS: [[u8; 32]; 3] = [
    [
        0xe3, 0xb0, 0xc4, 0x42, 0x98, 0xfc, 0x1c, 0x14, 0x9a, 0xfb, 0xf4, 0xc8, 0x99, 0x6f, 0xb9,
        0x24, 0x27, 0xae, 0x41, 0xe4, 0x64, 0x9b, 0x93, 0x4c, 0xa4, 0x95, 0x99, 0x1b, 0x78, 0x52,
        0xb8, 0x55,
    ],
    [
        0x6f, 0x9b, 0xcb, 0xa2, 0x46, 0xf1, 0xb1, 0x11, 0x14, 0x68, 0x61, 0x29, 0x97, 0x26, 0x7f,
        0x34, 0xa3, 0x01, 0xce, 0xa0, 0x6b, 0x9a, 0x2f, 0x77, 0x4c, 0x1a, 0x15, 0x1d, 0xb3, 0x0e,
        0x6c, 0xf1,
    ],
    [
        0xfa, 0x0f, 0x10, 0xff, 0xbe, 0xa0, 0xd1, 0xc9, 0x08, 0x3d, 0x52, 0xe5, 0xe4, 0xb8, 0x2a,
        0x9f, 0xda, 0xf2, 0x3f, 0xba, 0xf1, 0x20, 0xc4, 0xbf, 0xbc, 0x43, 0x57, 0x07, 0x8a, 0xb9,
        0xf3, 0xd3,
    ],
];

// The number of bytes of the book of line 13, and which digest it has.
type Line = (u32, usize);

const EMPTY: Line = (0, 0);

const WHOLE: Line = (9, 1);

const TORN: Line = (8, 2);

fn line_13(line: Option<Line>) -> Option<BookLine> {
    let (size, at) = line?;
    Some(BookLine {
        size,
        digest: *DIGESTS.get(at)?,
    })
}

// Line 13, a book, whether the book begins with that of line 13, and whether it is that.
static BOOKS: [(Option<Line>, &str, bool, bool); 12] = [
    (None, "", true, true),
    (None, "revoke 6", true, true),
    (Some(EMPTY), "", true, true),
    (Some(EMPTY), "revoke 5\n", true, false),
    (Some(WHOLE), "", false, false),
    (Some(WHOLE), "revoke 5", false, false),
    (Some(WHOLE), "revoke 6\n", false, false),
    (Some(WHOLE), "revoke 5\n", true, true),
    (Some(WHOLE), "revoke 5\nrevoke 6\n", true, false),
    (Some(WHOLE), "revoke 15\nrevoke 6\n", false, false),
    (Some(TORN), "revoke 5", false, true),
    (Some(TORN), "revoke 5\n", false, false),
];

#[test]
fn a_book_is_that_of_line_13(rt: HostRuntime) {
    for (line, book, begins, is) in &BOOKS {
        let line = line_13(*line);
        let bytes = book.as_bytes();
        assert!(rt; begins_with_book(line, bytes) == *begins, "{book}");
        assert!(rt; is_book(line, bytes) == *is, "{book}");
    }
}

#[test]
fn whole_lines_end_with_a_line_feed(rt: HostRuntime) {
    for (text, are) in [
        ("", true),
        ("\n", true),
        ("a\n", true),
        ("a", false),
        ("a\nb", false),
    ] {
        assert!(rt; ends_lines(text.as_bytes()) == are, "{text}");
    }
}

// A depot with this book as "b".
fn shelf(alloc: Global, book: &str) -> Result<MemDepot, AllocError> {
    let Ok(mut depot) = MemDepot::new(alloc, 64, 64) else {
        return Err(AllocError);
    };
    let bytes = Vec::from_slice(alloc, book.as_bytes())?;
    match depot.put("b", bytes) {
        Ok(()) => Ok(depot),
        Err(_) => Err(AllocError),
    }
}

// How many commands a book says, or the exit of what is answered to it, and the line that is refused.
type Said = Result<usize, (u8, u32)>;

fn refused(status: Status) -> (u8, u32) {
    match status {
        Status::BadBook { line, .. } => (status.code(), line.number),
        _ => (status.code(), 0),
    }
}

fn own(alloc: Global, line: Option<Line>, book: &str) -> Result<Option<Said>, AllocError> {
    let mut depot = shelf(alloc, book)?;
    let Some(h) = Height::new(3) else {
        return Ok(None);
    };
    Ok(Some(
        match read_own(alloc, &mut depot, Word::at(2, "b"), h, line_13(line)) {
            Ok(book) => Ok(book.commands().len()),
            Err(status) => Err(refused(status)),
        },
    ))
}

fn longer(alloc: Global, line: Option<Line>, book: &str) -> Result<Option<Said>, AllocError> {
    let mut depot = shelf(alloc, book)?;
    let Some(h) = Height::new(3) else {
        return Ok(None);
    };
    Ok(Some(
        match read_longer(alloc, &mut depot, Word::at(2, "b"), h, line_13(line)) {
            Ok(file) => {
                if file.bytes.as_slice() != book.as_bytes() {
                    return Ok(None);
                }
                Ok(file.book.commands().len())
            }
            Err(status) => Err(refused(status)),
        },
    ))
}

// Line 13, a book, what is answered where it must be that of line 13, and where it must begin with that.
static READ: [(Option<Line>, &str, Said, Said); 8] = [
    (None, "revoke 5", Ok(1), Err((7, 1))),
    (Some(EMPTY), "", Ok(0), Ok(0)),
    (Some(EMPTY), "revoke 5\nrevoke 6", Err((21, 0)), Err((7, 2))),
    (Some(WHOLE), "revoke 5\n", Ok(1), Ok(1)),
    (Some(WHOLE), "revoke 5\nrevoke 6\n", Err((21, 0)), Ok(2)),
    (
        Some(WHOLE),
        "revoke 5\nrevoke 8\n",
        Err((21, 0)),
        Err((7, 2)),
    ),
    (Some(WHOLE), "revoke 9\n", Err((21, 0)), Err((21, 0))),
    (Some(TORN), "revoke 5", Ok(1), Err((21, 0))),
];

#[test]
fn a_book_is_judged_by_line_13(rt: HostRuntime) -> Result<(), AllocError> {
    let alloc = rt.alloc();
    for (line, book, is, begins) in &READ {
        assert!(rt; own(alloc, *line, book)? == Some(*is), "{book}");
        assert!(rt; longer(alloc, *line, book)? == Some(*begins), "{book}");
    }
    Ok(())
}

// Whether a file that must be new is answered so, and holds this then.
fn is_new(alloc: Global, depot: &mut MemDepot, name: &str, is: bool, left: &str) -> bool {
    let made = match make_new(alloc, depot, Word::at(4, name), b"site") {
        Ok(()) => is,
        Err(
            Status::BadOut {
                word: 4,
                cause: OutCause::There,
            },
        ) => !is,
        Err(_) => false,
    };
    made && depot.get(name) == Some(left.as_bytes())
}

#[test]
fn a_site_is_made_once(rt: HostRuntime) -> Result<(), AllocError> {
    let alloc = rt.alloc();
    let mut depot = shelf(alloc, "revoke 5\n")?;
    for (name, is, left) in [
        ("1", true, "site"),
        ("1", false, "site"),
        ("b", false, "revoke 5\n"),
    ] {
        assert!(rt; is_new(alloc, &mut depot, name, is, left));
    }
    Ok(())
}
