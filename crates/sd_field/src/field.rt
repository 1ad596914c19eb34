ghost use Rattle.std.specs.Prelude.{◌≡◌, ◌↔◌, ◌<◌, ◌≤◌, ◌^◌, true, false, All, length, Some, None, Ok};
ghost use Rattle.std.specs.Prelude.{Err};
ghost use Rattle.std.specs.Prelude.{IfOk, IfErr, IfSome, IsErr, IsSome, OnOk};
ghost use Rattle.std.specs.List.{concat};
ghost use Rattle.sd_site_cards.specs.SiteFields.{site_fields_of};
ghost use Rattle.sd_message.specs.declared.clear_fault.ClearFault.{ClearFault as Fault};
ghost use Rattle.sd_spec.specs.Plan.{IsPlan};
ghost use Rattle.sd_spec.specs.Refused.{IsClear};
ghost use Rattle.sd_spec.specs.Sent.{body};
ghost use Rattle.sd_spec.specs.declared.event.Event.TheVariants.{Lose, Off, Offer, On, Revoke, Send, Subscribe};
ghost use Rattle.sd_spec.specs.Events.{is_of};
ghost use Rattle.sd_field.specs.declared.fault.FieldFault.{FieldFault as Faults};
ghost use Rattle.sd_field.specs.Fields.{IsCommand, IsSentCut, IsWrittenCut, IsWrittenOver, EventTakesMemory};
ghost use Rattle.sd_field.specs.Fields.{after_fault, after_next, next_event, next_refusal, plan_of_field, sends_of};
ghost use Rattle.sd_field.specs.Fields.{field_clear_packets, watch_of, written_of};

use crate::fault::FieldFault;
use crate::laid::event_book;
use crate::seat::{Seat, lose_next, new_seats, pass_next};
use crate::station::Station;
use sd_base::{NoMemory, Steps};
use sd_book::Book;
use sd_packet::{Packet, SIZE};
use sd_site_cards::Site;
use sd_spec::Event;
use sd_tree_keys::Leaf;
use std::alloc::Global;
use std::marker::Model;
use std::sync::ledger::Ledger;

/// The room for what is sent with one clear packet, in packets. A head end of a tree of height at most 6 sends fewer.
const MOST_WITH_ONE: usize = 72;

/// A field: a head end and a receiver for each leaf, and the events that happen to them [this project, docs/FORMATS.md,
/// Field].
pub struct Field {
    alloc: Global,
    site: Site,
    clear: Vec<Packet>,
    events: Vec<Event>,
    book: Book,
    done: usize,
    failed: Option<FieldFault>,
    station: Station,
    seats: Vec<Seat>,
}

// Written out, so that an owner drops a field by one call and not vector by vector.
impl Drop for Field {
    fn drop(self) {
        let Field {
            alloc: _,
            site: _,
            clear: _,
            events: _,
            book: _,
            done: _,
            failed: _,
            station: _,
            seats: _,
        } = self;
    }
}

impl Model for Field {
    ghost use Rattle.sd_site_cards.specs.SiteFields.{site_fields_of};
    ghost use Rattle.sd_field.specs.Fields.{FieldValue, IsField};

    ghost Value = { FieldValue };

    ghost view = { λ f. record {
      site = site_fields_of f.site;
      clear = f.clear.items;
      events = f.events.items;
      done = f.done;
      failed = f.failed;
    } };

    ghost invariant = { λ f. IsField (record {
      site = site_fields_of f.site;
      clear = f.clear.items;
      events = f.events.items;
      done = f.done;
      failed = f.failed;
    }) f.book f.station f.seats.items };
}

impl Field {
    /// A field before its first event: all receivers are on, and nothing is sent.
    ///
    /// It allocates room for all packets that will be sent and written, of 188 bytes each: 72 packets per clear packet
    /// for what is sent, and for each leaf as many packets as there are clear ones.
    pub fn new<L: Ledger>(
        alloc: Global,
        site: Site,
        clear: Vec<Packet>,
        events: Vec<Event>,
        steps: &mut Steps<L>,
    ) -> Result<Field, NoMemory>
        requires height { site.height ≤ 6 }
        requires packets { length clear.items ≤ 16384 }
        requires events { length events.items ≤ 524288 }
        requires leaves { All (λ event. is_of site.height event ≡ true) events.items }
        ensures { IfOk result (λ field. field ≡ record {
          site = site_fields_of site;
          clear = clear.items;
          events = events.items;
          done = 0;
          failed = None;
        }) }
    {
        let count = clear.len();
        let book = event_book(alloc, &site, count, &events)?;
        let plan = event_book(alloc, &site, count, &events)?;
        let station = Station::new(alloc, site, plan, SIZE * MOST_WITH_ONE * count)?;
        let seats = new_seats(alloc, &site, SIZE * count, steps)?;
        Ok(Field {
            alloc,
            site,
            clear,
            events,
            book,
            done: 0,
            failed: None,
            station,
            seats,
        })
    }

    /// Runs the next event, and returns whether one was left. After a fault nothing more happens: the same fault is
    /// returned from then on.
    ///
    /// It returns `Clear` if the head end refuses the clear packet of a send. `NoMemory` is possible at a send, at an
    /// offer, and when a receiver is switched on.
    pub fn step<L: Ledger>(&mut self, steps: &mut Steps<L>) -> Result<bool, FieldFault>
        ensures done { result ≡ Ok true → (self.old.done < length self.old.events) × (self.old.failed ≡ None)
            × (self.new ≡ after_next self.old) }
        ensures end { result ≡ Ok false ↔ ((self.old.failed ≡ None) × (self.old.done ≡ length self.old.events)) }
        ensures idle { result ≡ Ok false → self.new ≡ self.old }
        ensures refused { IfErr result (λ fault. self.new ≡ after_fault fault self.old) }
        ensures again { (fault : Faults) → self.old.failed ≡ Some fault → result ≡ Err fault }
        ensures clear { (fault : Fault) → self.old.failed ≡ None →
            (result ≡ Err (FieldFault.Clear fault)) ↔ (next_refusal self.old ≡ Some fault) }
        ensures memory { result ≡ Err FieldFault.NoMemory → self.old.failed ≡ None →
            EventTakesMemory self.old (next_event self.old) }
    {
        if let Some(fault) = self.failed {
            return Err(fault);
        }
        match self.events.get(self.done) {
            Some(event) => {
                let event = *event;
                self.happen(event, steps)?;
                Ok(true)
            }
            None => Ok(false),
        }
    }

    /// Runs the next event, which is this one.
    fn happen<L: Ledger>(&mut self, event: Event, steps: &mut Steps<L>) -> Result<(), FieldFault>
        requires next { next_event self.old ≡ Some event }
        requires tree { is_of self.old.site.height event ≡ true }
        requires calm { self.old.failed ≡ None }
        ensures ok { OnOk result (self.new ≡ after_next self.old) }
        ensures refused { IfErr result (λ fault. self.new ≡ after_fault fault self.old) }
        ensures allowed { OnOk result (next_refusal self.old ≡ None) }
        ensures clear { (fault : Fault) → result ≡ Err (FieldFault.Clear fault) → next_refusal self.old ≡ Some fault }
        ensures memory { result ≡ Err FieldFault.NoMemory →
            (next_refusal self.old ≡ None) × EventTakesMemory self.old (Some event) }
    {
        match event {
            Event::Subscribe(_) | Event::Revoke(_) => {
                self.command();
                Ok(())
            }
            Event::Send => self.send(steps),
            Event::Offer(u) => self.offer(u, steps),
            Event::Lose(u) => {
                self.lose(u);
                Ok(())
            }
            Event::Off(u) => {
                self.off(u);
                Ok(())
            }
            Event::On(u) => self.on(u, steps),
        }
    }

    /// Runs the next event, which is a command: the book has it already.
    fn command(&mut self)
        requires some { IsSome (next_event self.old) }
        requires next { IfSome (next_event self.old) IsCommand }
        requires calm { self.old.failed ≡ None }
        ensures ok { self.new ≡ after_next self.old }
    {
        self.done += 1;
    }

    /// Runs the next event, which is a send.
    fn send<L: Ledger>(&mut self, steps: &mut Steps<L>) -> Result<(), FieldFault>
        requires next { next_event self.old ≡ Some Send }
        requires calm { self.old.failed ≡ None }
        ensures ok { OnOk result (self.new ≡ after_next self.old) }
        ensures refused { IfErr result (λ fault. self.new ≡ after_fault fault self.old) }
        ensures allowed { OnOk result (next_refusal self.old ≡ None) }
        ensures clear { (fault : Fault) → result ≡ Err (FieldFault.Clear fault) → next_refusal self.old ≡ Some fault }
        ensures memory { result ≡ Err FieldFault.NoMemory →
            (next_refusal self.old ≡ None) × EventTakesMemory self.old (Some Send) }
    {
        let Some(packet) = self.clear.get(self.station.count) else {
            self.done += 1;
            return Ok(());
        };
        match self.station.send(packet, steps) {
            Ok(()) => {
                self.done += 1;
                Ok(())
            }
            Err(fault) => {
                self.failed = Some(fault);
                Err(fault)
            }
        }
    }

    /// Runs the next event, which is an offer to this leaf.
    fn offer<L: Ledger>(&mut self, u: Leaf, steps: &mut Steps<L>) -> Result<(), FieldFault>
        requires next { next_event self.old ≡ Some (Offer u) }
        requires leaf { u < 2 ^ self.old.site.height }
        requires calm { self.old.failed ≡ None }
        ensures ok { OnOk result (self.new ≡ after_next self.old) }
        ensures refused { IfErr result (λ fault. self.new ≡ after_fault fault self.old) }
        ensures fault { IfErr result (λ fault. fault ≡ FieldFault.NoMemory) }
        ensures full { IsErr result → IsWrittenOver u self.old }
    {
        let seat = &mut self.seats[u.get() as usize];
        match pass_next(seat, self.station.sent.bytes(), steps) {
            Ok(()) => {
                self.done += 1;
                Ok(())
            }
            Err(_) => {
                self.failed = Some(FieldFault::NoMemory);
                Err(FieldFault::NoMemory)
            }
        }
    }

    /// Runs the next event, at which this leaf's receiver loses a packet.
    fn lose(&mut self, u: Leaf)
        requires next { next_event self.old ≡ Some (Lose u) }
        requires leaf { u < 2 ^ self.old.site.height }
        requires calm { self.old.failed ≡ None }
        ensures ok { self.new ≡ after_next self.old }
    {
        let seat = &mut self.seats[u.get() as usize];
        lose_next(seat, self.station.sent.bytes());
        self.done += 1;
    }

    /// Runs the next event, which switches this leaf's receiver off.
    fn off(&mut self, u: Leaf)
        requires next { next_event self.old ≡ Some (Off u) }
        requires leaf { u < 2 ^ self.old.site.height }
        requires calm { self.old.failed ≡ None }
        ensures ok { self.new ≡ after_next self.old }
    {
        let seat = &mut self.seats[u.get() as usize];
        seat.turn_off();
        self.done += 1;
    }

    /// Runs the next event, which switches this leaf's receiver on.
    fn on<L: Ledger>(&mut self, u: Leaf, steps: &mut Steps<L>) -> Result<(), FieldFault>
        requires next { next_event self.old ≡ Some (On u) }
        requires leaf { u < 2 ^ self.old.site.height }
        requires calm { self.old.failed ≡ None }
        ensures ok { OnOk result (self.new ≡ after_next self.old) }
        ensures refused { IfErr result (λ fault. self.new ≡ after_fault fault self.old) }
        ensures fault { IfErr result (λ fault. fault ≡ FieldFault.NoMemory) }
        ensures was_off { IsErr result → (watch_of u self.old).on ≡ false }
    {
        let seat = &mut self.seats[u.get() as usize];
        match seat.turn_on(self.alloc, &self.site, u, steps) {
            Ok(()) => {
                self.done += 1;
                Ok(())
            }
            Err(_) => {
                self.failed = Some(FieldFault::NoMemory);
                Err(FieldFault::NoMemory)
            }
        }
    }

    /// The number of clear packets that were sent.
    pub fn sends(&self) -> u64
        ensures value { result ≡ sends_of self.now }
        ensures fits { IsPlan (plan_of_field self.now) × IsClear self.now.site (field_clear_packets self.now) }
    {
        self.station.count as u64
    }

    /// The bytes of all packets that were sent, in order.
    pub fn sent(&self) -> &[u8]
        ensures value { ¬ IsSentCut self.now → result.now ≡ concat (body (plan_of_field self.now)
            (field_clear_packets self.now)) }
    {
        self.station.sent.bytes()
    }

    /// The bytes of all packets that the receivers of a leaf wrote, one receiver after the other.
    pub fn written(&self, u: Leaf) -> &[u8]
        requires leaf { u < 2 ^ self.now.site.height }
        ensures value { ¬ IsWrittenCut u self.now → result.now ≡ written_of u self.now }
    {
        self.seats[u.get() as usize].written.bytes()
    }

    /// The book of the commands of all events, whether they are done or not.
    pub fn book(&self) -> &Book
        ensures value { (result.now.height ≡ self.now.site.height)
            × (result.now.commands ≡ (plan_of_field self.now).commands) }
    {
        &self.book
    }
}
