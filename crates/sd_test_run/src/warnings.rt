use crate::leaving::{list_of, noted};
use crate::session::{put, shelf};
use sd_command_base::Status;
use sd_ports::MemSink;
use sd_ports_memory::MemDepot;
use sd_test_texts::site;
use std::alloc::{AllocError, Global};

/// The sites: of eight lines, of nine, of ten with each version of the messages, and of twelve.
static SITES: [(&str, &str); 6] = [
    ("eight", site!()),
    ("nine", site!("messages 3\n")),
    ("first", site!("messages 1\nfirst-word 0\n")),
    (
        "second",
        site!("messages 2\nfirst-word 7\nlast-word 4294967295\n"),
    ),
    ("third", site!("messages 3\nfirst-word 7\n")),
    (
        "twelve",
        site!("messages 3\nfirst-word 0\nlast-word 4294967295\nfirst-period 0\n"),
    ),
];

/// What `head` says of each.
static WARNINGS: [(&str, &str); 6] = [
    (
        "eight",
        "sdca: warning: SITE eight: it has no line first-word; sent twice, it repeats its control words; make sites by next\n",
    ),
    (
        "nine",
        "sdca: warning: SITE nine: it has no line first-word; sent twice, it repeats its control words; make sites by next\n",
    ),
    (
        "first",
        "sdca: warning: SITE first: its messages are of version 1; a box that stays on loses the next broadcast; take messages 3\n",
    ),
    (
        "second",
        "sdca: warning: SITE second: its messages are of version 2; a box that stays on loses the next broadcast; take messages 3\n",
    ),
    ("third", ""),
    ("twelve", ""),
];

/// The sites, a book, a stream, and files that are no site and no book.
fn begun(alloc: Global) -> Result<MemDepot, AllocError> {
    let mut depot = shelf(
        alloc,
        "height 3\n",
        "revoke 5\n",
        "\n$ bad\nrevoke 9\n",
        "sample 7 40 clear\n",
    )?;
    for (name, text) in SITES {
        put(alloc, &mut depot, name, text)?;
    }
    Ok(depot)
}

/// What the words come to, and what is said meanwhile, if there is room for so many bytes of it.
fn said(
    alloc: Global,
    depot: &mut MemDepot,
    words: &[&str],
    room: usize,
) -> Result<(Status, Vec<u8>), AllocError> {
    let list = list_of(alloc, words)?;
    let mut print = MemSink::new(alloc, 4096, 4096, Vec::new(alloc)).map_err(|_| AllocError)?;
    let mut notes = MemSink::new(alloc, room, 7, Vec::new(alloc)).map_err(|_| AllocError)?;
    let status = noted(alloc, &list, depot, &mut print, &mut notes);
    Ok((status, notes.into_bytes()))
}

#[test]
fn head_warns_of_a_site_once_and_of_a_whole_one_never(rt: HostRuntime) -> Result<(), AllocError> {
    let alloc = rt.alloc();
    let mut depot = begun(alloc)?;
    for (name, due) in WARNINGS {
        let (status, notes) = said(
            alloc,
            &mut depot,
            &["head", name, "book", "clear", "sent"],
            4096,
        )?;
        assert_eq!(rt; status.code(), 0, "{name}");
        assert_eq!(rt; notes.as_slice(), due.as_bytes(), "{name}");
    }
    for command in ["field", "trial"] {
        let words = [command, "eight", "book", "clear"];
        let (_, notes) = said(alloc, &mut depot, &words, 4096)?;
        assert_eq!(rt; notes.len(), 0, "{command}");
    }
    Ok(())
}

#[test]
fn a_warning_comes_before_the_first_byte_of_out(rt: HostRuntime) -> Result<(), AllocError> {
    let alloc = rt.alloc();
    let mut depot = begun(alloc)?;
    depot.fail_port(String::from_str(alloc, "sent")?, 0);
    let (status, notes) = said(
        alloc,
        &mut depot,
        &["head", "eight", "book", "clear", "sent"],
        4096,
    )?;
    assert_eq!(rt; status.code(), 4);
    assert_eq!(rt; depot.get("sent"), Some(&[][..]));
    assert_eq!(rt; notes.as_slice(), WARNINGS[0].1.as_bytes());
    Ok(())
}

#[test]
fn nothing_is_warned_of_what_is_refused(rt: HostRuntime) -> Result<(), AllocError> {
    let alloc = rt.alloc();
    let mut depot = begun(alloc)?;
    for (site, book) in [
        ("site", "book"),
        ("gone", "book"),
        ("eight", "bad"),
        ("eight", "gone"),
    ] {
        let (_, notes) = said(
            alloc,
            &mut depot,
            &["head", site, book, "clear", "sent"],
            4096,
        )?;
        assert_eq!(rt; notes.len(), 0, "{site} {book}");
    }
    Ok(())
}

#[test]
fn a_warning_that_cannot_be_written_changes_nothing(rt: HostRuntime) -> Result<(), AllocError> {
    let alloc = rt.alloc();
    let mut depot = begun(alloc)?;
    said(
        alloc,
        &mut depot,
        &["head", "eight", "book", "clear", "sent"],
        4096,
    )?;
    let (status, notes) = said(
        alloc,
        &mut depot,
        &["head", "eight", "book", "clear", "again"],
        20,
    )?;
    assert_eq!(rt; status.code(), 0);
    assert!(rt; notes.len() < 27);
    assert!(rt; depot.get("sent").is_some());
    assert_eq!(rt; depot.get("again"), depot.get("sent"));
    Ok(())
}
