use crate::heights::height;
use sd_book::{BookLimit, MOST_PERIODS};
use sd_run_books::{AccountFault, Accounts};
use std::alloc::{AllocError, Global};
use std::fmt::Write;
use std::test::Fail;

// Accounts, their book and their report.
static MADE: [(&str, &str, &str); 4] = [
    (
        "assign ann 5\nperiod\ndrop ann\n",
        "subscribe 5\nperiod\nrevoke 5\n",
        "{\"accounts\":[{\"active\":false,\"leaf\":5,\"name\":\"ann\"}],\"height\":3,\"period\":1}",
    ),
    ("", "", "{\"accounts\":[],\"height\":3,\"period\":0}"),
    (
        "assign zoe 0\nassign ann-2 7\ndrop zoe\nperiod\nrestore zoe",
        "subscribe 0\nsubscribe 7\nrevoke 0\nperiod\nsubscribe 0\n",
        "{\"accounts\":[{\"active\":true,\"leaf\":7,\"name\":\"ann-2\"},\
         {\"active\":true,\"leaf\":0,\"name\":\"zoe\"}],\"height\":3,\"period\":1}",
    ),
    (
        "assign a0123456789-bcdefghijklmnopqrstu 3\ndrop a0123456789-bcdefghijklmnopqrstu\n",
        "subscribe 3\nrevoke 3\n",
        "{\"accounts\":[{\"active\":false,\"leaf\":3,\"name\":\"a0123456789-bcdefghijklmnopqrstu\"}],\
         \"height\":3,\"period\":0}",
    ),
];

// Whether these accounts make this book and this report.
fn are_made(alloc: Global, text: &str, book: &str, report: &str) -> Result<bool, Fail> {
    let accounts = Accounts::read(alloc, text.as_bytes(), height(3)?)
        .ok()
        .ok_or("accounts")?;
    let made = accounts.book().write(alloc)?;
    let told = accounts.report(alloc)?;
    Ok(made.as_slice() == book.as_bytes() && told.as_slice() == report.as_bytes())
}

#[test]
fn accounts_make_a_book_and_a_report(rt: HostRuntime) -> Result<(), Fail> {
    for (text, book, report) in &MADE {
        assert!(rt; are_made(rt.alloc(), text, book, report)?);
    }
    Ok(())
}

fn fault_of(alloc: Global, d: u8, text: &[u8]) -> Result<Option<AccountFault>, Fail> {
    Ok(Accounts::read(alloc, text, height(d)?).err())
}

// Accounts, and what is wrong with them.
static FAULTS: [(&[u8], AccountFault); 21] = [
    (b"assign ann 8\n", AccountFault::Line(1)),
    (b"assign ann 05\n", AccountFault::Line(1)),
    (b"assign ann\n", AccountFault::Line(1)),
    (b"assign  5\n", AccountFault::Line(1)),
    (b"assign ann 5 \n", AccountFault::Line(1)),
    (b"assign Ann 5\n", AccountFault::Line(1)),
    (b"assign \xc3\xa4 5\n", AccountFault::Line(1)),
    (
        b"assign abcdefghijklmnopqrstuvwxyz0123456 5\n",
        AccountFault::Line(1),
    ),
    (b"assign ann 99999999999999999999\n", AccountFault::Line(1)),
    (b"drop \n", AccountFault::Line(1)),
    (b"drop ann 5\n", AccountFault::Line(1)),
    (b"revoke 5\n", AccountFault::Line(1)),
    (b"period \n", AccountFault::Line(1)),
    (b"period\r\n", AccountFault::Line(1)),
    (b"assign ann 5\n\n", AccountFault::Line(2)),
    (b"assign ann 5\ndrop bob\n", AccountFault::Unknown(2)),
    (b"restore ann\nassign ann 5\n", AccountFault::Unknown(1)),
    (b"assign ann 5\nassign ann 6\n", AccountFault::Taken(2)),
    (
        b"assign ann 5\ndrop ann\nassign bob 5\n",
        AccountFault::Taken(3),
    ),
    (b"assign ann 5\nassign ann 8\n", AccountFault::Line(2)),
    (b"drop ann\nfoo\n", AccountFault::Unknown(1)),
];

#[test]
fn faults_come_at_their_lines(rt: HostRuntime) -> Result<(), Fail> {
    for (text, fault) in &FAULTS {
        assert!(rt; fault_of(rt.alloc(), 3, text)? == Some(*fault));
    }
    Ok(())
}

/// `assign` of the first leaves, as many lines `period`, and a last line.
fn text_of(alloc: Global, names: u32, periods: u32, last: &str) -> Result<String, AllocError> {
    let mut text = String::new(alloc);
    for u in 0..names {
        write!(text, "assign n{u} {u}\n")?;
    }
    for _ in 0..periods {
        text.push_str("period\n")?;
    }
    text.push_str(last)?;
    Ok(text)
}

// A height, how many leaves are assigned, how many lines `period` there are, the last line, and what is wrong.
static LIMITS: [(u8, u32, u32, &str, Option<AccountFault>); 3] = [
    (3, 1, MOST_PERIODS, "", None),
    (
        3,
        1,
        MOST_PERIODS,
        "period\n",
        Some(AccountFault::Limit(BookLimit::Periods)),
    ),
    (
        3,
        1,
        MOST_PERIODS,
        "drop bob\n",
        Some(AccountFault::Unknown(MOST_PERIODS + 2)),
    ),
];

#[test]
fn limits_come_after_the_other_faults(rt: HostRuntime) -> Result<(), Fail> {
    for (d, names, periods, last, fault) in &LIMITS {
        let text = text_of(rt.alloc(), *names, *periods, last)?;
        assert!(rt; fault_of(rt.alloc(), *d, text.as_bytes())? == *fault);
    }
    Ok(())
}
