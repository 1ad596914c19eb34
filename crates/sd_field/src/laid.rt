ghost use Rattle.std.specs.Prelude.{◌≡◌, ◌<◌, ◌≤◌, ◌^◌, ◌++◌, ◌∷◌, [], true, All, IfOk, OnOk, length, reverse, ℕ};
ghost use Rattle.sd_site_cards.specs.SiteFields.{site_fields_of};
ghost use Rattle.sd_book.specs.Commands.{is_within, last_period};
ghost use Rattle.sd_book.specs.Limits.{IsDraft, IsWithinLimits};
ghost use Rattle.sd_spec.specs.declared.event.Event.TheVariants.{Send};
ghost use Rattle.sd_spec.specs.Events.{is_of, sends_with};
ghost use Rattle.sd_spec.specs.Book.{book_after_event, book_with_command, event_book, with_periods_to, open_period};
ghost use Rattle.sd_spec.specs.Book.{period_after};
ghost use Rattle.sd_spec.specs.Book.{period_to_reach};
ghost use Rattle.sd_field.specs.Laid.{IsBookOfEvents};

use sd_base::NoMemory;
use sd_book::{Book, BookFault, Command, Draft, MOST_PERIODS};
use sd_site_cards::Site;
use sd_spec::Event;
use std::alloc::Global;

/// The book that the events so far make: its commands, its last period, and the number of clear packets that were sent.
#[derive(Drop)]
pub struct Laid {
    draft: Draft,
    last: u32,
    sends: usize,
}

/// The period of packet k, if the book has one for it.
#[tactic(auto, unfolding(sd_spec::specs::Plan::crypto_of))]
fn open_period(site: &Site, k: u64) -> u64
    requires few { k < 2 ^ 32 }
    ensures value { result ≡ open_period (site_fields_of site.now) k }
    ensures low { result < 2 ^ 33 }
{
    let crypto = k / u64::from(site.every * site.cryptos);
    u64::from(site.first_period) + crypto / u64::from(site.span)
}

/// The period of a command after this number of sends.
fn period_after(site: &Site, sends: usize) -> u64
    requires few { sends ≤ 16384 }
    ensures { result ≡ period_after (site_fields_of site.now) sends }
{
    if sends == 0 {
        return 0;
    }
    open_period(site, sends as u64 - 1) + 1
}

/// The last period that the book must have after this number of sends.
fn reached(site: &Site, sends: usize) -> u32
    requires few { sends ≤ 16384 }
    ensures { result ≡ period_to_reach (site_fields_of site.now) sends }
{
    if sends == 0 {
        return 0;
    }
    let open = open_period(site, sends as u64 - 1);
    if open < u64::from(MOST_PERIODS) {
        open as u32
    } else {
        MOST_PERIODS
    }
}

/// Puts a command at the end, with which the book is still within its limits.
fn push(draft: &mut Draft, command: Command) -> Result<(), NoMemory>
    requires leaf { is_within draft.old.height command ≡ true }
    requires fits { IsDraft draft.old.height (draft.old.commands ++ command ∷ []) }
    ensures height { draft.new.height ≡ draft.old.height }
    ensures value { OnOk result (draft.new.commands ≡ draft.old.commands ++ command ∷ []) }
{
    match draft.push(command) {
        Ok(()) => Ok(()),
        Err(BookFault::NoMemory) => Err(NoMemory),
        Err(_) => unreachable!(),
    }
}

impl Laid {
    /// The book of no event.
    fn new(alloc: Global, site: &Site) -> Result<Laid, NoMemory>
        ensures { IfOk result (λ laid. (m : ℕ) → IsBookOfEvents (site_fields_of site.now) m [] laid) }
    {
        Ok(Laid {
            draft: Draft::new(alloc, site.height)?,
            last: 0,
            sends: 0,
        })
    }

    /// Puts Period commands at the end until this period is the last, if it isn't yet.
    fn fill(&mut self, period: u32) -> Result<(), NoMemory>
        requires last { self.old.last ≡ last_period self.old.draft.commands }
        requires low { self.old.draft.height ≤ 6 }
        requires fits { IsWithinLimits self.old.draft.height (with_periods_to period self.old.draft.commands) }
        ensures height { self.new.draft.height ≡ self.old.draft.height }
        ensures value { OnOk result (self.new.draft.commands ≡ with_periods_to period self.old.draft.commands) }
        ensures last { OnOk result (self.new.last ≡ last_period self.new.draft.commands) }
        ensures sends { self.new.sends ≡ self.old.sends }
    {
        while self.last < period {
            push(&mut self.draft, Command::Period)?;
            self.last += 1;
        }
        Ok(())
    }

    /// Takes a command. It is ignored if no book can have its period.
    fn command(&mut self, site: &Site, command: Command) -> Result<(), NoMemory>
        requires last { self.old.last ≡ last_period self.old.draft.commands }
        requires few { self.old.sends ≤ 16384 }
        requires leaf { is_within self.old.draft.height command ≡ true }
        requires single { last_period (command ∷ []) ≡ 0 }
        requires low { self.old.draft.height ≤ 6 }
        requires fits { IsWithinLimits self.old.draft.height
            (book_with_command (period_after (site_fields_of site.now) self.old.sends) command
            self.old.draft.commands) }
        ensures height { self.new.draft.height ≡ self.old.draft.height }
        ensures value { OnOk result (self.new.draft.commands
            ≡ book_with_command (period_after (site_fields_of site.now) self.old.sends) command
            self.old.draft.commands) }
        ensures last { OnOk result (self.new.last ≡ last_period self.new.draft.commands) }
        ensures sends { self.new.sends ≡ self.old.sends }
    {
        let period = period_after(site, self.sends);
        if period > u64::from(MOST_PERIODS) {
            return Ok(());
        }
        self.fill(period as u32)?;
        push(&mut self.draft, command)
    }

    /// Takes a send, after which the book must have the period that is then on air.
    fn send(&mut self, site: &Site, clear: usize) -> Result<(), NoMemory>
        requires last { self.old.last ≡ last_period self.old.draft.commands }
        requires few { clear ≤ 16384 }
        requires within { self.old.sends ≤ clear }
        requires low { self.old.draft.height ≤ 6 }
        requires fits { IsWithinLimits self.old.draft.height
            (book_after_event (site_fields_of site.now) clear self.old.sends Send self.old.draft.commands) }
        ensures height { self.new.draft.height ≡ self.old.draft.height }
        ensures value { OnOk result (self.new.draft.commands
            ≡ book_after_event (site_fields_of site.now) clear self.old.sends Send self.old.draft.commands) }
        ensures last { OnOk result (self.new.last ≡ last_period self.new.draft.commands) }
        ensures sends { OnOk result (self.new.sends ≡ sends_with clear Send self.old.sends) }
    {
        if self.sends < clear {
            self.sends += 1;
        }
        self.fill(reached(site, self.sends))
    }

    /// Takes the next event.
    fn take(&mut self, site: &Site, clear: usize, event: Event) -> Result<(), NoMemory>
        requires few { clear ≤ 16384 }
        requires within { self.old.sends ≤ clear }
        requires last { self.old.last ≡ last_period self.old.draft.commands }
        requires leaf { is_of self.old.draft.height event ≡ true }
        requires low { self.old.draft.height ≤ 6 }
        requires fits { IsWithinLimits self.old.draft.height
            (book_after_event (site_fields_of site.now) clear self.old.sends event self.old.draft.commands) }
        ensures height { self.new.draft.height ≡ self.old.draft.height }
        ensures value { OnOk result (self.new.draft.commands
            ≡ book_after_event (site_fields_of site.now) clear self.old.sends event self.old.draft.commands) }
        ensures last { OnOk result (self.new.last ≡ last_period self.new.draft.commands) }
        ensures sends { OnOk result (self.new.sends ≡ sends_with clear event self.old.sends) }
    {
        match event {
            Event::Subscribe(u) => self.command(site, Command::Subscribe(u)),
            Event::Revoke(u) => self.command(site, Command::Revoke(u)),
            Event::Send => self.send(site, clear),
            Event::Offer(_) | Event::Lose(_) | Event::Off(_) | Event::On(_) => Ok(()),
        }
    }
}

/// The book that the events make of a clear stream of `clear` packets.
pub(crate) fn event_book(
    alloc: Global,
    site: &Site,
    clear: usize,
    events: &[Event],
) -> Result<Book, NoMemory>
    requires few { clear ≤ 16384 }
    requires leaves { All (λ event. is_of site.now.height event ≡ true) events.now }
    requires low { site.now.height ≤ 6 }
    requires short { length events.now ≤ 524288 }
    ensures height { IfOk result (λ book. book.height ≡ site.now.height) }
    ensures value { IfOk result (λ book. book.commands
        ≡ event_book (site_fields_of site.now) clear (reverse events.now)) }
{
    let mut laid = Laid::new(alloc, site)?;
    for event in events {
        laid.take(site, clear, *event)?;
    }
    match laid.draft.finish() {
        Ok(book) => Ok(book),
        Err(_) => unreachable!(),
    }
}
