use sd_site_cards::{Site, SiteFault, read};
use std::alloc::{AllocError, Global};
use std::test::*;

static LINES: [&str; 9] = [
    "height 3",
    "master 000102030405060708090a0b0c0d0e0f101112131415161718191a1b1c1d1e1f",
    "ca 1234",
    "emm 496",
    "ecm 497",
    "ecm-every 200",
    "crypto-ecms 2",
    "period-cryptos 1",
    "messages 2",
];

const UPPER: &str = "master 000102030405060708090A0B0C0D0E0F101112131415161718191A1B1C1D1E1F";

// The lines, the first `count` of them, with another in the place of line k.
fn text(alloc: Global, count: usize, k: usize, other: &str) -> Result<String, AllocError> {
    let mut text = String::new(alloc);
    for i in 0..count.min(LINES.len()) {
        if i + 1 == k {
            text.push_str(other)?;
        } else {
            text.push_str(LINES[i])?;
        }
        text.push('\n')?;
    }
    Ok(text)
}

// How many lines there are, a line of another text, that text, and the version of messages.
static GOOD: [(usize, usize, &str, u8); 5] = [
    (8, 0, "", 1),
    (8, 2, UPPER, 1),
    (9, 9, "messages 1", 1),
    (9, 0, "", 2),
    (9, 9, "messages 3", 3),
];

// Whether the text is read as the site of the lines, with this version of messages.
fn is_read(bytes: &[u8], messages: u8) -> bool {
    let Ok(site) = read(bytes) else {
        return false;
    };
    let mut counts_up = true;
    for (i, byte) in site.master.iter().enumerate() {
        counts_up = counts_up && usize::from(*byte) == i;
    }
    counts_up
        && site.height.get() == 3
        && (site.ca, site.emm, site.ecm) == (0x1234, 496, 497)
        && (site.every, site.cryptos, site.span) == (200, 2, 1)
        && site.messages == messages
}

// Whether the text is read so as it is, and without the end of its last line, which it may lack.
fn is_read_both_ways(whole: &[u8], messages: u8) -> bool {
    let cut = whole.get(..whole.len().saturating_sub(1));
    is_read(whole, messages) && cut.is_some_and(|cut| is_read(cut, messages))
}

#[test]
fn a_site_is_read(rt: HostRuntime) -> Result<(), Fail> {
    for (count, k, line, messages) in &GOOD {
        let text = text(rt.alloc(), *count, *k, line)?;
        let is_due = is_read_both_ways(text.as_bytes(), *messages);
        assert!(rt; is_due, "{count} lines with {line}");
    }
    Ok(())
}

// How many lines there are, a line of another text, that text, and what is wrong.
static BAD: [(usize, usize, &str, SiteFault); 34] = [
    (0, 0, "", SiteFault::Short),
    (7, 0, "", SiteFault::Short),
    (8, 1, "height 21", SiteFault::Range(1)),
    (8, 1, "height 0", SiteFault::Range(1)),
    (8, 1, "height 03", SiteFault::Line(1)),
    (8, 1, "height 99999999999999999999", SiteFault::Range(1)),
    (8, 1, "height 3\r", SiteFault::Line(1)),
    (8, 3, "ca 123", SiteFault::Line(3)),
    (8, 3, "ca 12g4", SiteFault::Line(3)),
    (8, 4, "ecm 497", SiteFault::Line(4)),
    (8, 4, "emm 31", SiteFault::Range(4)),
    (8, 4, "emm 8176", SiteFault::Range(4)),
    (8, 5, "ecm 496", SiteFault::SamePid),
    (9, 5, "ecm 496", SiteFault::SamePid),
    (8, 6, "ecm-every 4097", SiteFault::Range(6)),
    (8, 7, "crypto-ecms 257", SiteFault::Range(7)),
    (8, 8, "period-cryptos 65536", SiteFault::Range(8)),
    (8, 8, "period-cryptos 1\n", SiteFault::Line(9)),
    (9, 9, "messages 0", SiteFault::Range(9)),
    (9, 9, "messages 4", SiteFault::Range(9)),
    (9, 9, "messages", SiteFault::Line(9)),
    (9, 9, "messages 2\n", SiteFault::Line(10)),
    (9, 9, "messages 2\nmessages 2", SiteFault::Line(10)),
    (9, 9, "first-word 7", SiteFault::Line(9)),
    (9, 9, "first-period 7", SiteFault::Line(9)),
    (
        9,
        9,
        "messages 1\nfirst-word 4294967296",
        SiteFault::Range(10),
    ),
    (9, 9, "messages 1\nfirst-word 07", SiteFault::Line(10)),
    (9, 9, "messages 1\nlast-word 1", SiteFault::Line(10)),
    (
        9,
        9,
        "messages 1\nfirst-word 7\nlast-word 4294967296",
        SiteFault::Range(11),
    ),
    (
        9,
        9,
        "messages 1\nfirst-word 7\nlast-word 00",
        SiteFault::Line(11),
    ),
    (
        9,
        9,
        "messages 1\nfirst-word 7\nfirst-period 1",
        SiteFault::Line(11),
    ),
    (
        9,
        9,
        "messages 1\nfirst-word 7\nlast-word 9\nfirst-period 4294967296",
        SiteFault::Range(12),
    ),
    (
        9,
        9,
        "messages 1\nfirst-word 7\nlast-word 9\nfirst-period -1",
        SiteFault::Line(12),
    ),
    (
        9,
        9,
        "messages 1\nfirst-word 7\nlast-word 9\nfirst-period 1\n",
        SiteFault::Line(13),
    ),
];

#[test]
fn the_first_bad_line_decides(rt: HostRuntime) -> Result<(), Fail> {
    for (count, k, line, fault) in &BAD {
        let text = text(rt.alloc(), *count, *k, line)?;
        assert!(rt; read(text.as_bytes()).err() == Some(*fault), "at {line}");
    }
    Ok(())
}

const GREATEST: u32 = 4_294_967_295;

// The lines from the ninth on, and the first and last control word and the first period that they name.
static NAMED: [(&str, (u32, u32, u32)); 4] = [
    ("messages 1", (0, GREATEST, 0)),
    ("messages 1\nfirst-word 0", (0, GREATEST, 0)),
    (
        "messages 2\nfirst-word 4294967295\nlast-word 4294967295",
        (GREATEST, GREATEST, 0),
    ),
    (
        "messages 2\nfirst-word 4294967295\nlast-word 0\nfirst-period 4294967295",
        (GREATEST, 0, GREATEST),
    ),
];

// The site of the first eight lines and these.
fn site_with(alloc: Global, lines: &str) -> Result<Site, Fail> {
    let text = text(alloc, 9, 9, lines)?;
    Ok(read(text.as_bytes()).ok().ok_or("the text is a site file")?)
}

#[test]
fn a_site_names_its_words_and_its_first_period(rt: HostRuntime) -> Result<(), Fail> {
    for (lines, named) in &NAMED {
        let site = site_with(rt.alloc(), lines)?;
        assert!(rt; (site.first_word, site.last_word, site.first_period) == *named);
    }
    Ok(())
}

// The lines from the ninth on, and the name that the run's messages tell.
static RUNS: [(&str, Option<u32>); 4] = [
    ("messages 1\nfirst-word 7", None),
    ("messages 2\nfirst-word 7", None),
    ("messages 3", Some(0)),
    (
        "messages 3\nfirst-word 7\nlast-word 9\nfirst-period 4",
        Some(7),
    ),
];

#[test]
fn a_run_is_named_by_its_first_word(rt: HostRuntime) -> Result<(), Fail> {
    for (lines, name) in &RUNS {
        assert!(rt; site_with(rt.alloc(), lines)?.name() == *name);
    }
    Ok(())
}
