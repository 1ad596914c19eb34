ghost use Rattle.std.specs.Prelude.{◌≡◌, ◌<◌, IfSome};
ghost use Rattle.sd_head.specs.Kept.{IsUnbegun, plan_of};

use crate::made::site_of;
use crate::sections::ALL;
use sd_base::Steps;
use sd_book::Book;
use sd_head::{CryptoPeriod, Entitling};
use sd_packet::{SIZE, pack_section};
use sd_site_cards::Site;
use sd_test_texts::{BOOK, SITE, site};
use std::alloc::Global;
use std::marker::Brand;
use std::sync::ledger::{Blank, Ledger};

// The entitlements of period 1, of S(1,13).
static OTHERS: [u8; 79] = [
    0x82, 0xB0, 0x4C, 0x00, 0x00, 0xC1, 0x00, 0x00, 0x00, 0x00, 0x00, 0x01, 0x00, 0x00, 0x00, 0x01,
    0x00, 0x01, 0x1D, 0xCD, 0x30, 0x91, 0x3B, 0x9A, 0x37, 0xB4, 0x77, 0x26, 0x94, 0xD7, 0x8C, 0x1D,
    0x7F, 0x2F, 0x01, 0x00, 0x00, 0x00, 0x01, 0x00, 0x00, 0x00, 0x0D, 0x40, 0x62, 0x1E, 0xBE, 0xFD,
    0x0A, 0xD7, 0x3F, 0xDB, 0xB9, 0x42, 0x4F, 0xCF, 0xF1, 0xC7, 0x0B, 0x28, 0x33, 0x94, 0x08, 0x0D,
    0x07, 0x27, 0x1C, 0xC4, 0xEF, 0x66, 0x5B, 0xBC, 0x77, 0xB8, 0xC6, 0x23, 0xD6, 0xD6, 0x18,
];

// The check values of the control words.
static FIRST_CHECK: [u8; 16] = [
    0x16, 0xF2, 0x1B, 0xEC, 0x8B, 0x49, 0xA2, 0x9A, 0x6B, 0xF9, 0x44, 0xDA, 0x8F, 0xBB, 0x98, 0xBB,
];

static SECOND_CHECK: [u8; 16] = [
    0xBF, 0xA8, 0x80, 0x7F, 0x78, 0x5E, 0x1F, 0xC8, 0xF7, 0xF0, 0x55, 0xA5, 0x75, 0x33, 0x72, 0xB8,
];

// What is kept once a crypto period has begun: the packets of entitlements, and the crypto period.
type Begun = (Vec<[u8; SIZE]>, CryptoPeriod);

// What is kept before the first crypto period.
fn before(alloc: Global, site: &Site) -> Option<Entitling>
    ensures { IfSome result (λ entitling. IsUnbegun (plan_of site.now entitling.book) entitling) }
{
    let book = Book::read(alloc, BOOK.as_bytes(), site.height).ok()?;
    Some(Entitling::new(alloc, site, book))
}

// Begins the first crypto period, or both; each of them begins a period.
fn begin<L: Ledger>(
    alloc: Global,
    site: &Site,
    entitling: &mut Entitling,
    is_second: bool,
    steps: &mut Steps<L>,
) -> Option<Begun>
    requires { IsUnbegun (plan_of site.now entitling.old.book) entitling.old }
{
    let has_next = site.first_word < u32::MAX;
    entitling.begin(site, 0, steps).ok()?;
    if is_second && has_next {
        entitling.begin(site, 1, steps).ok()?;
    }
    let emms = entitling.emms().to_vec(alloc).ok()?;
    Some((emms, *entitling.crypto()))
}

fn counted<L: Ledger>(alloc: Global, site: &Site, is_second: bool, blank: Blank) -> Option<Begun>
    requires name { blank.name ≡ L.name }
    requires parts { blank.parts ≡ L.parts }
    requires some { 0 < blank.parts }
{
    let mut steps = Steps::<L>::new(blank);
    begin(
        alloc,
        site,
        &mut before(alloc, site)?,
        is_second,
        &mut steps,
    )
}

fn begun(alloc: Global, site: &Site, is_second: bool) -> Option<Begun> {
    counted::<Brand>(alloc, site, is_second, Blank::new(1))
}

// Whether the packets are that of these entitlements alone.
fn are_of(emms: &[[u8; SIZE]], section: &[u8; 79]) -> bool {
    emms == [*pack_section(section, 496, 0).bytes()].as_slice()
}

// Whether the crypto period and the period of a number, 0 or 1, begin with these entitlements and this check value.
fn is_begun(alloc: Global, number: u32, section: &[u8; 79], check: &[u8; 16]) -> Option<bool> {
    let (emms, crypto) = begun(alloc, &site_of(SITE)?, number == 1)?;
    let is_due = (crypto.number, crypto.period) == (number, number) && crypto.check == *check;
    Some(is_due && are_of(&emms, section))
}

#[test]
fn periods_begin_with_their_sets(rt: HostRuntime) {
    assert!(rt; is_begun(rt.alloc(), 0, &ALL, &FIRST_CHECK) == Some(true));
    assert!(rt; is_begun(rt.alloc(), 1, &OTHERS, &SECOND_CHECK) == Some(true));
}

// Runs that begin at control word 7: with period 1, and with one after the book's last.
static LATER: &str = site!("messages 2\nfirst-word 7\nlast-word 8\nfirst-period 1\n");

static LAST: &str = site!("messages 2\nfirst-word 7\nlast-word 8\nfirst-period 4294967295\n");

// The check value of control word 7.
static SEVENTH_CHECK: [u8; 16] = [
    0x1B, 0x74, 0x70, 0xF9, 0xAA, 0xB7, 0xBC, 0x5E, 0xC2, 0xB2, 0x3E, 0x36, 0x70, 0x39, 0x51, 0x26,
];

// Whether control word 7 and this period are begun with a packet of entitlements.
fn is_begun_at(alloc: Global, text: &str, period: u32) -> Option<bool> {
    let (emms, crypto) = begun(alloc, &site_of(text)?, false)?;
    let is_due = (crypto.number, crypto.period) == (7, period) && crypto.check == SEVENTH_CHECK;
    Some(is_due && emms.len() == 1 && (period > 1 || are_of(&emms, &OTHERS)))
}

#[test]
fn a_run_begins_at_its_first_word_and_period(rt: HostRuntime) {
    assert!(rt; is_begun_at(rt.alloc(), LATER, 1) == Some(true));
    assert!(rt; is_begun_at(rt.alloc(), LAST, 4_294_967_295) == Some(true));
}
