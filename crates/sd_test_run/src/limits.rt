use crate::parts::{Part, bytes_of};
use crate::session::{first_wrong, shelf};
use sd_test_texts::SITE;
use std::alloc::{AllocError, Global};

/// As many bytes as a book has at most, and one more.
const MOST_BYTES: &[Part] = &[Part::Times(32_768, &[b'x'; 1024])];

const MORE_BYTES: &[Part] = &[Part::Times(32_768, &[b'x'; 1024]), Part::Bytes(b"x")];

/// As many lines as a book has at most, and one more.
const MOST_LINES: &[Part] = &[Part::Times(1_048_576, b"revoke 5\n")];

const MORE_LINES: &[Part] = &[Part::Times(1_048_577, b"revoke 5\n")];

/// The first row of a table that isn't so over a site, an empty book and the file `long` of these parts: nothing if all
/// rows are so. The table, if something was made.
fn first_wrong_over<'a>(
    alloc: Global,
    long: &[Part],
    table: &'a str,
) -> Result<&'a str, AllocError> {
    let mut depot = shelf(alloc, SITE, "", "", "")?;
    let bytes = bytes_of(alloc, long)?;
    depot.put("long", bytes).map_err(|_| AllocError)?;
    let wrong = first_wrong(alloc, &mut depot, table)?;
    Ok(if depot.made() == 0 { wrong } else { table })
}

// The commands that read such a file, with a byte too much.
const TOO_LONG: &str = "
$ cover site long | 11
limit: book bytes
$ accounts site long out | 11
limit: book bytes
$ book site book long out | 11
limit: book bytes
$ opens site book long | 11
limit: book bytes
$ field site book long | 11
limit: book bytes
";

#[test]
fn books_of_too_many_bytes_are_refused(rt: HostRuntime) -> Result<(), AllocError> {
    let wrong = first_wrong_over(rt.alloc(), MORE_BYTES, TOO_LONG)?;
    assert!(rt; wrong.is_empty(), "{wrong}");
    Ok(())
}

const LONGEST: &str = "
$ cover site long | 7
word 2 line 1 is refused
";

#[test]
fn books_of_the_most_bytes_are_read(rt: HostRuntime) -> Result<(), AllocError> {
    let wrong = first_wrong_over(rt.alloc(), MOST_BYTES, LONGEST)?;
    assert!(rt; wrong.is_empty(), "{wrong}");
    Ok(())
}

// Files of lines, and what `cover` does with them.
static COUNTED: [(&[Part], &str); 2] = [
    (MORE_LINES, "$ cover site long | 11\nlimit: book lines\n"),
    (
        MOST_LINES,
        "$ cover site long | 0\nperiod 0 revoked 1 sets 1\n1 13\n",
    ),
];

#[test]
fn lines_are_counted(rt: HostRuntime) -> Result<(), AllocError> {
    for (lines, table) in &COUNTED {
        let wrong = first_wrong_over(rt.alloc(), lines, table)?;
        assert!(rt; wrong.is_empty(), "{wrong}");
    }
    Ok(())
}
