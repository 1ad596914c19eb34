use sd_site_cards::{
    MOST_FIRST_PERIOD, MOST_WORD, Site, SiteFault, read, read_newest, read_with_book,
};
use std::alloc::{AllocError, Global};
use std::test::*;

// The twelve lines of a site with control words 1501 to 2500.
const TWELVE: &str = "height 3
master 000102030405060708090a0b0c0d0e0f101112131415161718191a1b1c1d1e1f
ca 1234
emm 496
ecm 497
ecm-every 20
crypto-ecms 2
period-cryptos 1
messages 3
first-word 1501
last-word 2500
first-period 2
";

// The line of the book `revoke 5`.
const BOOK: &str = "book 9 6f9bcba246f1b1111468612997267f34a301cea06b9a2f774c1a151db30e6cf1\n";

// A first site.
const FIRST: &str = "height 3
master 000102030405060708090a0b0c0d0e0f101112131415161718191a1b1c1d1e1f
ca 1234
emm 496
ecm 497
ecm-every 20
crypto-ecms 2
period-cryptos 1
messages 3
first-word 1
last-word 0
first-period 0
";

// The site whose numbers are the least.
const LEAST: &str = "height 1
master 0000000000000000000000000000000000000000000000000000000000000000
ca 0000
emm 32
ecm 33
ecm-every 1
crypto-ecms 1
period-cryptos 1
messages 1
first-word 0
last-word 0
first-period 0
book 0 0000000000000000000000000000000000000000000000000000000000000000
";

// The site whose numbers are the greatest.
const GREATEST: &str = "height 20
master ffffffffffffffffffffffffffffffffffffffffffffffffffffffffffffffff
ca ffff
emm 8175
ecm 8174
ecm-every 4096
crypto-ecms 256
period-cryptos 65535
messages 3
first-word 4294967295
last-word 4294967295
first-period 4294967295
book 33554432 ffffffffffffffffffffffffffffffffffffffffffffffffffffffffffffffff
";

// The file of what these bytes say.
fn again(alloc: Global, bytes: &[u8]) -> Result<Vec<u8>, Fail> {
    let (site, book) = read_newest(bytes, false).ok().ok_or("the site is whole")?;
    let book = book.ok_or("the site has a book")?;
    Ok(site.write(alloc, &book)?)
}

#[test]
fn sites_are_written_as_they_were(rt: HostRuntime) -> Result<(), Fail> {
    let alloc = rt.alloc();
    let made = format!(in alloc; "{TWELVE}{BOOK}")?;
    for text in [LEAST, GREATEST, made.as_str()] {
        assert!(rt; again(alloc, text.as_bytes())?.as_slice() == text.as_bytes());
    }
    assert!(rt; GREATEST.len() == 317);
    Ok(())
}

#[test]
fn digits_are_written_in_lower_case(rt: HostRuntime) -> Result<(), Fail> {
    let alloc = rt.alloc();
    let upper = format!(in alloc;
        "{TWELVE}book 9 6F9BCBA246F1B1111468612997267F34A301CEA06B9A2F774C1A151DB30E6CF1\n"
    )?;
    let made = format!(in alloc; "{TWELVE}{BOOK}")?;
    assert!(rt; again(alloc, upper.as_bytes())?.as_slice() == made.as_bytes());
    Ok(())
}

#[test]
fn a_torn_site_is_none(rt: HostRuntime) -> Result<(), Fail> {
    let made = format!(in rt.alloc(); "{TWELVE}{BOOK}")?;
    let bytes = made.as_bytes();
    for count in 0..bytes.len() {
        let torn = bytes.get(..count).unwrap_or(&[]);
        assert!(rt; read_newest(torn, true).is_err(), "{count} bytes");
    }
    Ok(())
}

#[test]
fn a_first_site_is_taken_where_it_may_be(rt: HostRuntime) -> Result<(), Fail> {
    let bytes = FIRST.as_bytes();
    let cut = bytes.get(..bytes.len().saturating_sub(1)).unwrap_or(&[]);
    assert!(rt; read_newest(bytes, true).is_ok_and(|said| said.1.is_none()));
    assert!(rt; read_newest(bytes, false).err() == Some(SiteFault::Short));
    assert!(rt; read_newest(cut, true).err() == Some(SiteFault::Short));
    assert!(rt; read(cut).is_ok());
    Ok(())
}

// A line 13, and what is wrong with it.
static BAD: [(&str, SiteFault); 14] = [
    (
        "Book 9 6f9bcba246f1b1111468612997267f34a301cea06b9a2f774c1a151db30e6cf1",
        SiteFault::Line(13),
    ),
    (
        "book  9 6f9bcba246f1b1111468612997267f34a301cea06b9a2f774c1a151db30e6cf1",
        SiteFault::Line(13),
    ),
    (
        "book 9  6f9bcba246f1b1111468612997267f34a301cea06b9a2f774c1a151db30e6cf1",
        SiteFault::Line(13),
    ),
    (
        "book 96f9bcba246f1b1111468612997267f34a301cea06b9a2f774c1a151db30e6cf1",
        SiteFault::Line(13),
    ),
    ("book 9", SiteFault::Line(13)),
    ("", SiteFault::Line(13)),
    (
        "book 09 6f9bcba246f1b1111468612997267f34a301cea06b9a2f774c1a151db30e6cf1",
        SiteFault::Line(13),
    ),
    (
        "book 9 6f9bcba246f1b1111468612997267f34a301cea06b9a2f774c1a151db30e6c",
        SiteFault::Line(13),
    ),
    (
        "book 9 6f9bcba246f1b1111468612997267f34a301cea06b9a2f774c1a151db30e6cfg",
        SiteFault::Line(13),
    ),
    (
        "book 9999999999999999999999999999999999999999 6f9bcba246f1b1111468612997267f34a301cea06b9a2f774c1a151db30e6cf",
        SiteFault::Line(13),
    ),
    (
        "book 9999999999999999999999999999999999999999 6f9bcba246f1b1111468612997267f34a301cea06b9a2f774c1a151db30e6cf1",
        SiteFault::Range(13),
    ),
    (
        "book 33554433 6f9bcba246f1b1111468612997267f34a301cea06b9a2f774c1a151db30e6cf1",
        SiteFault::Range(13),
    ),
    (
        "book 9 6f9bcba246f1b1111468612997267f34a301cea06b9a2f774c1a151db30e6cf1\n",
        SiteFault::Extra(14),
    ),
    (
        "book 9 6f9bcba246f1b1111468612997267f34a301cea06b9a2f774c1a151db30e6cf1\nmessages 1",
        SiteFault::Extra(14),
    ),
];

#[test]
fn line_13_is_judged(rt: HostRuntime) -> Result<(), Fail> {
    for (line, fault) in &BAD {
        let text = format!(in rt.alloc(); "{TWELVE}{line}\n")?;
        assert!(rt;
            read_with_book(text.as_bytes()).err() == Some(*fault),
            "at {line}"
        );
    }
    Ok(())
}

// The words and the first period of the sites that follow a site: at the same time, and after it with a book of 4
// periods.
fn following(site: &Site, words: u32) -> Option<[(u32, u32, u32); 2]> {
    if words == 0 || MOST_WORD - site.last_word < words || site.first_period >= MOST_FIRST_PERIOD {
        return None;
    }
    let twin = site.twin(words);
    let next = site.next(4, words);
    Some([
        (twin.first_word, twin.last_word, twin.first_period),
        (next.first_word, next.last_word, next.first_period),
    ])
}

#[test]
fn sites_follow_a_site(rt: HostRuntime) -> Result<(), Fail> {
    let first = read(FIRST.as_bytes()).ok().ok_or("it is a site")?;
    let later = read(TWELVE.as_bytes()).ok().ok_or("it is a site")?;
    assert!(rt; following(&first, 1000) == Some([(1, 1000, 0), (1, 1000, 5)]));
    assert!(rt; following(&later, 500) == Some([(2501, 3000, 2), (2501, 3000, 5)]));
    Ok(())
}
