use sd_command_base::{
    BadLine, LineCause, Status, Word, quoted, read_book, read_leaves, read_longer, site_excerpt,
};
use sd_ports_memory::MemDepot;
use sd_site_cards::SiteFault;
use sd_tree_keys::Height;
use std::alloc::{AllocError, Global};

fn name_of(cause: LineCause) -> &'static str {
    match cause {
        LineCause::ByteOrderMark => "byte-order mark",
        LineCause::NotText => "not text",
        LineCause::Long => "long",
        LineCause::Empty => "empty",
        LineCause::Return => "return",
        LineCause::Comment => "comment",
        LineCause::Tab => "tab",
        LineCause::Space => "space",
        LineCause::Capital => "capital",
        LineCause::Form => "form",
        LineCause::Leaf(10) => "not of height 10",
        LineCause::Descends => "descends",
        LineCause::Unended => "unended",
        LineCause::Leaf(_) | LineCause::Held { .. } | LineCause::Named(_) | LineCause::Unknown =>
            "another",
    }
}

// A depot with this file as "b".
fn shelf(alloc: Global, text: &str) -> Result<MemDepot, AllocError> {
    let Ok(mut depot) = MemDepot::new(alloc, 64, 64) else {
        return Err(AllocError);
    };
    let bytes = Vec::from_slice(alloc, text.as_bytes())?;
    match depot.put("b", bytes) {
        Ok(()) => Ok(depot),
        Err(_) => Err(AllocError),
    }
}

// How a file is read.
#[derive(Clone, Copy)]
enum Reading {
    Book,
    Longer,
    Leaves,
}

// The line of the file that is refused, where it is read so for a tree of height 10.
fn refused(alloc: Global, reading: Reading, text: &str) -> Result<Option<BadLine>, AllocError> {
    let mut depot = shelf(alloc, text)?;
    let Some(h) = Height::new(10) else {
        return Ok(None);
    };
    let word = Word::at(2, "b");
    let status = match reading {
        Reading::Book => read_book(alloc, &mut depot, word, h).err(),
        Reading::Longer => read_longer(alloc, &mut depot, word, h, None).err(),
        Reading::Leaves => read_leaves(alloc, &mut depot, word, h).err(),
    };
    Ok(match status {
        Some(Status::BadBook { word: 2, line }) => Some(line),
        _ => None,
    })
}

// A file, the number of the line that is refused, why, and how the line is quoted.
type Row = (Reading, &'static str, u32, &'static str, &'static str);

static LINES: [Row; 25] = [
    (Reading::Book, "revoke 5\r\n", 1, "return", "revoke 5\\x0d"),
    (Reading::Book, "revoke 5 \n", 1, "space", "revoke 5 "),
    (Reading::Book, " revoke 5\n", 1, "space", " revoke 5"),
    (Reading::Book, "revoke  5\n", 1, "space", "revoke  5"),
    (Reading::Book, "revoke\t5\n", 1, "tab", "revoke\\x095"),
    (Reading::Book, "# x\n", 1, "comment", "# x"),
    (Reading::Book, "Revoke 5\n", 1, "capital", "Revoke 5"),
    (Reading::Book, "revoke 5-9\n", 1, "form", "revoke 5-9"),
    (Reading::Book, "revoke 05\n", 1, "form", "revoke 05"),
    (
        Reading::Book,
        "\u{feff}revoke 5\n",
        1,
        "byte-order mark",
        "",
    ),
    (Reading::Book, "revoke 5\n\nperiod\n", 2, "empty", ""),
    (Reading::Book, "period\nperiod\nrevoke", 3, "form", "revoke"),
    (Reading::Book, "subscribe all\n", 1, "form", "subscribe all"),
    (
        Reading::Book,
        "period\nrevoke 1024\n",
        2,
        "not of height 10",
        "revoke 1024",
    ),
    (Reading::Book, "revoke \u{0}\n", 1, "not text", ""),
    (Reading::Book, "revoke \u{e9}\n", 1, "not text", ""),
    (
        Reading::Book,
        "subscribe 000000000000000000000000000000000000005\n",
        1,
        "long",
        "",
    ),
    (
        Reading::Book,
        "subscribe 00000000000000000000000000000000000005\n",
        1,
        "form",
        "subscribe 00000000000000000000000000000000000005",
    ),
    (Reading::Longer, "revoke 5\nperiod", 2, "unended", "period"),
    (Reading::Leaves, "5\n4\n", 2, "descends", "4"),
    (Reading::Leaves, "5\n5\n", 2, "descends", "5"),
    (Reading::Leaves, "5\n1024\n", 2, "not of height 10", "1024"),
    (
        Reading::Leaves,
        "4294967296\n",
        1,
        "not of height 10",
        "4294967296",
    ),
    (Reading::Leaves, "5\n06\n", 2, "form", "06"),
    (Reading::Leaves, "5\n6 \n", 2, "space", "6 "),
];

fn is_told(alloc: Global, row: Row) -> Result<bool, AllocError> {
    let (reading, text, number, cause, shown) = row;
    let Some(line) = refused(alloc, reading, text)? else {
        return Ok(false);
    };
    let quote = quoted(alloc, &line.text)?;
    Ok(line.number == number && name_of(line.cause) == cause && quote.as_str() == shown)
}

#[test]
fn each_cause_is_told_with_its_line(rt: HostRuntime) -> Result<(), AllocError> {
    for row in &LINES {
        let text = row.1;
        assert!(rt; is_told(rt.alloc(), *row)?, "{text}");
    }
    Ok(())
}

// The fault of a site, and what is shown of it where its second line has 24 bytes and its third 25.
static SITES: [(SiteFault, &[u8]); 6] = [
    (SiteFault::Line(1), b"sdca-site 1"),
    (SiteFault::Range(2), b"master 0123456789abcdef0"),
    (SiteFault::Line(3), b""),
    (SiteFault::Extra(14), b""),
    (SiteFault::SamePid, b""),
    (SiteFault::Short, b""),
];

#[test]
fn no_secret_of_a_site_is_shown(rt: HostRuntime) {
    let bytes = b"sdca-site 1\nmaster 0123456789abcdef0\nmaster 0123456789abcdef01\n";
    for (fault, text) in &SITES {
        assert!(rt; site_excerpt(*fault, bytes).text() == *text);
    }
}
