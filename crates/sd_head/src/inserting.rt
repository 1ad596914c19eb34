ghost use Rattle.std.specs.Prelude.{◌≡◌, ◌<◌, ◌++◌, [], ℕ, List, OnOk, IfOk, true, false, None, IsSome};
ghost use Rattle.sd_base.specs.Count.{HasCause};
ghost use Rattle.sd_engine.specs.Stage.{sink_state_of};
ghost use Rattle.sd_site_cards.specs.SiteFields.{site_fields_of};
ghost use Rattle.sd_spec.specs.Plan.{closing_number};
ghost use Rattle.sd_spec.specs.Messages.{places_after};
ghost use Rattle.sd_head.specs.After.{IsClearAfter as IsKept};
ghost use Rattle.sd_head.specs.Kept.{AreAlikeButCounters};
ghost use Rattle.sd_head.specs.Sending.{SendsBytes};
ghost use Rattle.sd_head.specs.Messages.{head_of_ecm, message_due, number_due};
ghost use Rattle.sd_head.specs.Items.{message_bytes, tables_bytes, AllMayBeSent, HasCountersAfter, HasPlaced};
ghost use Rattle.sd_head.specs.Items.{HasSentItems};
ghost use Rattle.sd_head.specs.Items.{MayBeSent};

use crate::cat::cat_packet;
use crate::counter::Counter;
use crate::message::message_head;
use crate::sender::Sender;
use crate::sending::{send, send_all, send_counted, send_message};
use crate::{Clear, CryptoPeriod};
use sd_base::NoMemory;
use sd_message::{EcmHead, MOST_PLACES};
use sd_packet::{Packet, SIZE};
use sd_ports::{PortFault, Sink};
use sd_site_cards::Site;
use std::alloc::Global;

impl Sender {
    /// Before the first message.
    pub fn new(alloc: Global, site: &Site) -> Result<Sender, NoMemory>
        ensures { IfOk result (λ sender. HasSentItems (site_fields_of site.now) [] sender) }
    {
        Ok(Sender {
            cat: cat_packet(site),
            cats: Counter::new(),
            emms: Counter::new(),
            ecms: Counter::new(),
            places: Vec::with_capacity(alloc, MOST_PLACES)?,
        })
    }

    /// Makes ready the message that stands before the next packet, of this number, if one does.
    pub fn prepare(
        &mut self,
        site: &Site,
        crypto: &CryptoPeriod,
        clear: &Clear,
        message: Option<u32>,
    ) -> Option<EcmHead>
        requires kept { (before : List (List ℕ)) × IsKept before clear.now }
        requires due { message ≡ number_due (site_fields_of site.now) clear.now.count }
        ensures value { result ≡ message_due (site_fields_of site.now) crypto.now clear.now.count }
        ensures fits { AllMayBeSent result self.new.places.items }
        ensures places { (before : List (List ℕ)) → IsKept before clear.now → IsSome result →
            self.new.places.items ≡ places_after before }
        ensures unchanged { HasPlaced self.old self.new }
    {
        match message {
            Some(number) => Some(self.make_ready(site, crypto, clear, number, false)),
            None => None,
        }
    }

    /// Makes ready the closing message.
    pub fn prepare_closing(&mut self, site: &Site, crypto: &CryptoPeriod, clear: &Clear) -> EcmHead
        requires { (before : List (List ℕ)) × IsKept before clear.now }
        ensures value { result ≡
            head_of_ecm (site_fields_of site.now) crypto.now clear.now.count
            (closing_number (site_fields_of site.now) clear.now.count) true }
        ensures fits { MayBeSent result self.new.places.items }
        ensures places { (before : List (List ℕ)) → IsKept before clear.now →
            self.new.places.items ≡ places_after before }
        ensures unchanged { HasPlaced self.old self.new }
    {
        let number = clear.count().div_ceil(site.every);
        self.make_ready(site, crypto, clear, number, true)
    }

    // Makes ready the message of this number.
    fn make_ready(
        &mut self,
        site: &Site,
        crypto: &CryptoPeriod,
        clear: &Clear,
        number: u32,
        closing: bool,
    ) -> EcmHead
        requires { (before : List (List ℕ)) × IsKept before clear.now }
        ensures value { result ≡ head_of_ecm (site_fields_of site.now) crypto.now clear.now.count number closing }
        ensures fits { MayBeSent result self.new.places.items }
        ensures places { (before : List (List ℕ)) → IsKept before clear.now →
            self.new.places.items ≡ places_after before }
        ensures unchanged { HasPlaced self.old self.new }
    {
        clear.write_places(&mut self.places);
        message_head(site, crypto, clear.count(), number, closing)
    }

    /// Sends the tables, where they are due, and the message, if there is one.
    pub fn send_inserted<K: Sink>(
        &mut self,
        due: bool,
        emms: &mut [[u8; SIZE]],
        message: Option<EcmHead>,
        pid: u16,
        out: &mut K,
    ) -> Result<(), PortFault>
        requires pid { pid < 8192 }
        requires fits { AllMayBeSent message self.old.places.items }
        ensures value { SendsBytes (sink_state_of K.Sink out.old) (sink_state_of K.Sink out.new)
            (tables_bytes self.old due emms.old ++ message_bytes pid self.old message) result }
        ensures next { OnOk result (HasCountersAfter self.old due emms.old message self.new) }
        ensures alike { OnOk result (AreAlikeButCounters emms.new emms.old) }
        ensures cause { HasCause (K.faults out.old) (K.faults out.new) result }
    {
        self.send_tables(due, emms, out)?;
        self.send_message(message, pid, out)
    }

    // Sends the tables, where they are due.
    fn send_tables<K: Sink>(
        &mut self,
        due: bool,
        emms: &mut [[u8; SIZE]],
        out: &mut K,
    ) -> Result<(), PortFault>
        ensures value { SendsBytes (sink_state_of K.Sink out.old) (sink_state_of K.Sink out.new)
            (tables_bytes self.old due emms.old) result }
        ensures next { OnOk result (HasCountersAfter self.old due emms.old None self.new) }
        ensures alike { OnOk result (AreAlikeButCounters emms.new emms.old) }
        ensures places { self.new.places ≡ self.old.places }
        ensures cause { HasCause (K.faults out.old) (K.faults out.new) result }
    {
        if !due {
            return Ok(());
        }
        send_counted(out, &self.cat, &mut self.cats)?;
        send_all(out, emms, &mut self.emms)
    }

    // Sends the message, if there is one.
    fn send_message<K: Sink>(
        &mut self,
        message: Option<EcmHead>,
        pid: u16,
        out: &mut K,
    ) -> Result<(), PortFault>
        requires pid { pid < 8192 }
        requires fits { AllMayBeSent message self.old.places.items }
        ensures value { SendsBytes (sink_state_of K.Sink out.old) (sink_state_of K.Sink out.new)
            (message_bytes pid self.old message) result }
        ensures next { OnOk result (HasCountersAfter self.old false [] message self.new) }
        ensures cause { HasCause (K.faults out.old) (K.faults out.new) result }
    {
        match message {
            Some(head) => send_message(out, &head, &self.places, pid, &mut self.ecms),
            None => Ok(()),
        }
    }

    /// Sends the tables, where they are due, the message, if there is one, and the packet.
    pub fn send_packet<K: Sink>(
        &mut self,
        due: bool,
        emms: &mut [[u8; SIZE]],
        message: Option<EcmHead>,
        pid: u16,
        packet: &Packet,
        out: &mut K,
    ) -> Result<(), PortFault>
        requires pid { pid < 8192 }
        requires fits { AllMayBeSent message self.old.places.items }
        ensures value { SendsBytes (sink_state_of K.Sink out.old) (sink_state_of K.Sink out.new)
            ((tables_bytes self.old due emms.old ++ message_bytes pid self.old message) ++ packet.now) result }
        ensures next { OnOk result (HasCountersAfter self.old due emms.old message self.new) }
        ensures alike { OnOk result (AreAlikeButCounters emms.new emms.old) }
        ensures cause { HasCause (K.faults out.old) (K.faults out.new) result }
    {
        self.send_inserted(due, emms, message, pid, out)?;
        send(out, packet)
    }
}
