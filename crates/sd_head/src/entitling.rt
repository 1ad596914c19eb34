ghost use Rattle.std.specs.Prelude.{◌≡◌, ◌+◌, ◌^◌, ◌<◌, ◌≤◌, min, true, OnOk, OnErr, length};
ghost use Rattle.std.specs.Borrow.{sem};
ghost use Rattle.sd_tree_keys.specs.declared.height.TheConstants.{HIGHEST};
ghost use Rattle.sd_tree_keys.specs.declared.leaf.TheConstants.{MOST_REVOKED};
ghost use Rattle.sd_site_cards.specs.SiteFields.{site_fields_of};
ghost use Rattle.sd_book.specs.Commands.{last_period, revoked};
ghost use Rattle.sd_book.specs.declared.limits.TheConstants.{MOST_PERIODS};
ghost use Rattle.sd_book.specs.Place.{IsPlaceIn};
ghost use Rattle.sd_cover_tracing.specs.Cover.{cover_of};
ghost use Rattle.sd_head.specs.Packets.{period_packets, period_of_sets};
ghost use Rattle.sd_spec.specs.Plan.{period_in};
ghost use Rattle.sd_head.specs.Kept.{plan_of, begins_period, revoked_before, HasBegun, IsUnbegun};
ghost use Rattle.sd_head.specs.Kept.{IsInPeriod, IsPeriodState, IsBeforePeriod};
ghost use Rattle.sd_head.specs.Lending.{LendsPackets};

use crate::crypto::CryptoPeriod;
use crate::entries::entries_of;
use crate::replay::replay;
use crate::sections::pack_sections;
use sd_base::{NoMemory, Steps};
use sd_book::{Book, Place};
use sd_cover_tracing::CoverIndex;
use sd_packet::SIZE;
use sd_site_cards::Site;
use sd_tree_keys::{HIGHEST, check_value, period_key};
use std::alloc::Global;
use std::sync::ledger::Ledger;

/// The current period and crypto period, with the packets of the period's entitlements and the index of its revoked
/// leaves (this project, docs/FORMATS.md, Broadcast).
#[derive(Drop)]
pub struct Entitling {
    book: Book,
    place: Place,
    index: CoverIndex,
    emms: Vec<[u8; SIZE]>,
    crypto: CryptoPeriod,
}

impl Entitling {
    /// Before the first crypto period. It takes no memory.
    pub fn new(alloc: Global, site: &Site, book: Book) -> Entitling
        requires { book.height ≡ site.now.height }
        ensures book { result.book ≡ book }
        ensures value { IsUnbegun (plan_of site.now book) result }
    {
        prove!(site.height.get() <= HIGHEST);
        prove!(site.ca <= u16::MAX);
        let _within_limits = book.commands();
        Entitling {
            place: Place::new(),
            index: CoverIndex::new(alloc, site.height),
            emms: Vec::new(alloc),
            crypto: CryptoPeriod::new(&site.master, 0, 0),
            book,
        }
    }

    /// Begins crypto period n, counted from 0 in each broadcast, after those before it. Only where a period begins with
    /// it does it take memory, and after `NoMemory` nothing more can begin.
    pub fn begin<L: Ledger>(
        &mut self,
        site: &Site,
        n: u32,
        steps: &mut Steps<L>,
    ) -> Result<(), NoMemory>
        requires before { IsBeforePeriod (plan_of site.now self.old.book) n self.old }
        requires fits { site.now.first_word + n < 2 ^ 32 }
        ensures book { self.new.book ≡ self.old.book }
        ensures value { OnOk result (IsPeriodState (plan_of site.now self.old.book) n self.new) }
        ensures fault { OnErr result (begins_period (plan_of site.now self.old.book) n ≡ true) }
    {
        let last = self.book.last_period();
        let q = site.first_period + (n / site.span).min(last.saturating_sub(site.first_period));
        self.reach_period(site, n, q, q.min(last), steps)?;
        self.crypto = CryptoPeriod::new(&site.master, q, site.first_word + n);
        Ok(())
    }

    // Begins period q, that of crypto period n, unless it has begun. The commands of the periods up to p decide it.
    fn reach_period<L: Ledger>(
        &mut self,
        site: &Site,
        n: u32,
        q: u32,
        p: u32,
        steps: &mut Steps<L>,
    ) -> Result<(), NoMemory>
        requires before { IsBeforePeriod (plan_of site.now self.old.book) n self.old }
        requires period { q ≡ period_in (plan_of site.now self.old.book) n }
        requires decided { p ≡ min q (last_period self.old.book.commands) }
        requires few { p ≤ MOST_PERIODS }
        ensures book { self.new.book ≡ self.old.book }
        ensures value { OnOk result (IsInPeriod (plan_of site.now self.old.book) q self.new) }
        ensures fault { OnErr result (begins_period (plan_of site.now self.old.book) n ≡ true) }
    {
        if self.place.next_period() > p {
            return Ok(());
        }
        self.begin_period(site, q, p, steps)
    }

    // Begins period q: takes the commands of the periods up to p into the index, and makes the packets of the
    // entitlements.
    fn begin_period<L: Ledger>(
        &mut self,
        site: &Site,
        q: u32,
        p: u32,
        steps: &mut Steps<L>,
    ) -> Result<(), NoMemory>
        requires before { HasBegun (plan_of site.now self.old.book) self.old.place.next self.old }
        requires decided { p ≡ min q (last_period self.old.book.commands) }
        requires few { p ≤ MOST_PERIODS }
        requires within { self.old.place.next ≤ p }
        ensures book { self.new.book ≡ self.old.book }
        ensures value { OnOk result (IsInPeriod (plan_of site.now self.old.book) q self.new) }
    {
        take_periods(&mut self.index, &mut self.place, &self.book, p, steps)?;
        pack_period(&mut self.emms, &self.index, site, q, steps)
    }

    /// The packets of the period's entitlements, for a sender to put its counters into. Until then each has counter 0.
    pub fn emms(&mut self) -> &mut [[u8; SIZE]]
        ensures* lent { sem 𝓛 (LendsPackets self.entry result) }
        ensures value { result.now ≡ self.old.emms.items }
    {
        self.emms.as_mut_slice()
    }

    /// The crypto period.
    pub fn crypto(&self) -> &CryptoPeriod
        ensures { result.now ≡ self.now.crypto }
    {
        &self.crypto
    }
}

// Takes the commands of the periods that come next, up to period p, into the index.
fn take_periods<L: Ledger>(
    index: &mut CoverIndex,
    place: &mut Place,
    book: &Book,
    p: u32,
    steps: &mut Steps<L>,
) -> Result<(), NoMemory>
    requires place { IsPlaceIn book.now.commands place.old }
    requires within { (place.old.next ≤ p) × (p ≤ last_period book.now.commands) }
    requires few { p ≤ MOST_PERIODS }
    requires height { index.old.height ≡ book.now.height }
    ensures place { IsPlaceIn book.now.commands place.new }
    ensures height { index.new.height ≡ index.old.height }
    ensures next { OnOk result (place.new.next ≡ p + 1) }
    ensures value { index.old.revoked ≡ revoked_before book.now.height book.now.commands place.old.next →
        OnOk result (index.new.revoked ≡ revoked book.now.height book.now.commands p) }
{
    for _period in place.next_period()..p + 1 {
        take_period(index, place, book, steps)?;
    }
    Ok(())
}

// Takes the commands of the period that comes next into the index.
fn take_period<L: Ledger>(
    index: &mut CoverIndex,
    place: &mut Place,
    book: &Book,
    steps: &mut Steps<L>,
) -> Result<(), NoMemory>
    requires place { IsPlaceIn book.now.commands place.old }
    requires within { place.old.next ≤ last_period book.now.commands }
    requires height { index.old.height ≡ book.now.height }
    ensures place { IsPlaceIn book.now.commands place.new }
    ensures next { place.new.next ≡ place.old.next + 1 }
    ensures height { index.new.height ≡ index.old.height }
    ensures value { index.old.revoked ≡ revoked_before book.now.height book.now.commands place.old.next →
        OnOk result (index.new.revoked ≡ revoked book.now.height book.now.commands place.old.next) }
{
    match place.next_commands(book) {
        Some(commands) => replay(index, commands, steps),
        None => Ok(()),
    }
}

// Makes the packets of the entitlements of period q from the index of its revoked leaves.
fn pack_period<L: Ledger>(
    packets: &mut Vec<[u8; SIZE]>,
    index: &CoverIndex,
    site: &Site,
    q: u32,
    steps: &mut Steps<L>,
) -> Result<(), NoMemory>
    requires height { index.now.height ≤ HIGHEST }
    requires few { length index.now.revoked ≤ MOST_REVOKED }
    ensures { OnOk result (packets.new.items ≡
        period_packets site.now.emm
        (period_of_sets (site_fields_of site.now) q (cover_of index.now.height index.now.revoked))) }
{
    let alloc = *packets.allocator();
    let sets = index.sets(alloc, steps)?;
    let entries = entries_of(alloc, site, q, &sets, steps)?;
    let check = check_value(&period_key(&site.master, q));
    pack_sections(packets, site.emm, site.name(), q, &check, &entries)
}
