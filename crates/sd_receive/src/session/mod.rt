//! What is kept of the current broadcast, and what a packet does to it.

ghost use Rattle.std.specs.Prelude.{◌≡◌, ℕ, ◌+◌, ◌≤◌, ◌<◌, [], true, false, List, None, Err, IfOk, IsErrOf};
ghost use Rattle.std.specs.Prelude.{if◌then◌else◌, ◌-◌};
ghost use Rattle.std.specs.Option.{option_map_or};
ghost use Rattle.sd_base.specs.Count.{IsCaused};
ghost use Rattle.sd_site_cards.specs.CardFields.{CardFields, card_fields_of};
ghost use Rattle.sd_message.specs.EcmForm.{IsEcm};
ghost use Rattle.sd_engine.specs.Stage.{sink_state_of};
ghost use Rattle.sd_spec.specs.Heard.{Heard, Controls, Other, heard_ecm};
ghost use Rattle.sd_spec.specs.Ending.{run_ending};
ghost use Rattle.sd_message.specs.EcmJudged.{ecm_read};
ghost use Rattle.sd_spec.specs.Counting.{is_part_again, is_stray as is_stray_heard};
ghost use Rattle.sd_receive.specs.Filter.{heard_as, IsFormed};
ghost use Rattle.sd_receive.specs.Session.{IsListenerAfter, heard_of_run, Judgement, TakesHeard, RefusesHeard};
ghost use Rattle.sd_receive.specs.Session.{CutsHeard, SessionOutcome, IsStill, capped_count};
ghost use Rattle.sd_receive.specs.Receiving.{takes_key_of};

mod message;

use crate::buffer::PacketBuffer;
use crate::ecm::{EcmAssembler, EcmProgress, is_foreign};
use crate::emm::{PeriodKeys, good_key_in};
use crate::filter::PacketKind;
use sd_base::{NoMemory, Steps};
use sd_engine::StageFault;
use sd_message::{EcmPart, StreamFault, read_ecm};
use sd_packet::Packet;
use sd_ports::Sink;
use sd_psi::Tuning;
use sd_site_cards::Card;
use sd_spec::Ending;
use std::alloc::Global;
use std::sync::ledger::Ledger;

// What a receiver that took a CAT keeps of the current run.
#[derive(Drop)]
pub struct Session {
    // Whether the closing control message is complete.
    pub closed: bool,
    // What it keeps of entitlements.
    pub keys: PeriodKeys,
    // What it keeps of control messages.
    pub assembler: EcmAssembler,
    // The packets buffered after the newest complete control message.
    pub buffer: PacketBuffer,
    // The number of packets of the run that were written, at most 2^64 - 1.
    pub written: u64,
}

impl Session {
    // Before anything was heard. All memory is allocated here.
    pub fn new(alloc: Global) -> Result<Session, NoMemory>
        ensures { IfOk result (λ session. (session.written ≡ 0) ×
            ((card : CardFields) → IsListenerAfter card [] session)) }
    {
        let keys = PeriodKeys::new(alloc)?;
        let assembler = EcmAssembler::new(alloc)?;
        let buffer = PacketBuffer::new(alloc)?;
        Ok(Session {
            closed: false,
            keys,
            assembler,
            buffer,
            written: 0,
        })
    }

    // Forgets all that was heard of the run.
    pub fn reset(&mut self)
        ensures follows { (card : CardFields) (past : List Heard) → IsListenerAfter card past self.old →
            IsListenerAfter card [] self.new }
        ensures written { self.new.written ≡ 0 }
    {
        self.closed = false;
        self.keys.reset();
        self.assembler.reset();
        self.buffer.reset();
        self.written = 0;
    }

    // Judges packet `number` of the stream, which was read as `heard`, before anything is kept of it. The key that a
    // section gives comes in place of `key`. Of a run that the packet begins nothing was heard.
    #[inline(always)]
    pub fn judge<L: Ledger>(
        &self,
        card: &Card,
        number: u64,
        heard: PacketKind<'_>,
        begins: bool,
        key: &mut Option<[u8; 32]>,
        steps: &mut Steps<L>,
    ) -> Result<(), StreamFault>
        requires form { IsFormed card.now.height heard }
        ensures value { (packet : List ℕ) (past : List Heard) →
            IsListenerAfter (card_fields_of card.now) past self.now →
            Judgement (card_fields_of card.now) number (heard_of_run begins past)
            (heard_as number packet heard.entry) key.new result }
        ensures steps { (packet : List ℕ) (past : List Heard) →
            IsListenerAfter (card_fields_of card.now) past self.now → steps.new ≤ steps.old
            + (if takes_key_of (card_fields_of card.now) (heard_of_run begins past)
            (heard_as number packet heard.entry) then card.now.height else 0) }
    {
        match heard {
            PacketKind::Entitles(emm) => {
                if begins {
                    good_key_in(card, number, emm, key, steps)
                } else {
                    self.keys.judge(card, number, emm, key, steps)
                }
            }
            _ => Ok(()),
        }
    }

    // Takes packet `number` of the stream, which was read as `heard` and of which this key was judged. The run must not
    // be closed. Of a packet that is refused something may be written if the receiver is strict. For a packet that is
    // no message the caller knows what was heard, so nothing is left of the choice.
    #[inline(always)]
    pub fn take<K: Sink>(
        &mut self,
        strict: bool,
        card: &Card,
        number: u64,
        tuning: Tuning,
        packet: &Packet,
        heard: PacketKind<'_>,
        key: Option<[u8; 32]>,
        out: &mut K,
    ) -> Result<(), StageFault<StreamFault>>
        requires ecm { tuning.ecm < 8192 }
        requires live { (past : List Heard) × IsListenerAfter (card_fields_of card.now) past self.old }
        requires open { self.old.closed ≡ false }
        requires form { IsFormed card.now.height heard }
        ensures value { SessionOutcome (TakesHeard true (card_fields_of card.now) tuning number
            (heard_as number packet.now heard.entry) key self.old)
            (RefusesHeard strict (card_fields_of card.now) tuning number (heard_as number packet.now heard.entry)
            self.old)
            (CutsHeard strict (card_fields_of card.now) tuning number (heard_as number packet.now heard.entry) key
            self.old) (sink_state_of K.Sink out.old) (sink_state_of K.Sink out.new) self.new result }
        ensures stands { (fault : StreamFault) → result ≡ Err (StageFault.Refused fault) →
            IsStill (card_fields_of card.now) self.old self.new }
        ensures cause { IsCaused (K.faults out.old) (K.faults out.new) (IsErrOf result StageFault.Write) }
    {
        match heard {
            PacketKind::Dropped => Ok(()),
            PacketKind::Other => {
                self.buffer.hold(number, packet);
                Ok(())
            }
            PacketKind::Entitles(emm) => {
                self.keys.keep(emm, key);
                Ok(())
            }
            PacketKind::Controls(part) => self.control(strict, card, number, tuning, part, out),
            PacketKind::BadEmm(fault) => Err(StageFault::Refused(StreamFault::BadEmm(
                number, fault,
            ))),
            PacketKind::BadEcm(fault) => Err(StageFault::Refused(StreamFault::BadEcm(
                number, fault,
            ))),
        }
    }

    // Takes a part of a control message.
    fn control<K: Sink>(
        &mut self,
        strict: bool,
        card: &Card,
        number: u64,
        tuning: Tuning,
        part: &EcmPart,
        out: &mut K,
    ) -> Result<(), StageFault<StreamFault>>
        requires ecm { tuning.ecm < 8192 }
        requires live { (past : List Heard) × IsListenerAfter (card_fields_of card.now) past self.old }
        requires open { self.old.closed ≡ false }
        requires form { IsEcm part.now }
        ensures value { SessionOutcome (TakesHeard true (card_fields_of card.now) tuning number (Controls part.now)
            None self.old)
            (RefusesHeard strict (card_fields_of card.now) tuning number (Controls part.now) self.old)
            (CutsHeard strict (card_fields_of card.now) tuning number (Controls part.now) None self.old)
            (sink_state_of K.Sink out.old) (sink_state_of K.Sink out.new) self.new result }
        ensures stands { (fault : StreamFault) → result ≡ Err (StageFault.Refused fault) →
            IsStill (card_fields_of card.now) self.old self.new }
        ensures cause { IsCaused (K.faults out.old) (K.faults out.new) (IsErrOf result StageFault.Write) }
    {
        match self.assembler.take(self.keys.period(), part) {
            Ok(EcmProgress::Waits) => Ok(()),
            Ok(EcmProgress::Complete(head)) => {
                self.complete(strict, card, number, tuning, &head, out)
            }
            Err(fault) => Err(StageFault::Refused(StreamFault::BadEcm(number, fault))),
        }
    }

    // How the current run ends, if it ends here.
    pub fn ending(&self) -> Ending
        ensures { (card : CardFields) (past : List Heard) (total : ℕ) → IsListenerAfter card past self.now →
            self.now.written ≡ capped_count total → result ≡ run_ending card past total }
    {
        if !self.closed {
            return Ending::Unclosed(self.awaited());
        }
        if let Some(period) = self.keys.revoked() {
            return Ending::Revoked(period);
        }
        if let Some(period) = self.keys.unkeyed() {
            return Ending::Unheard(period);
        }
        let missing = self.missing();
        if missing > 0 {
            return Ending::Gaps(missing);
        }
        Ending::Opened
    }

    // The number of the control message that is awaited next, 0 if none was complete.
    fn awaited(&self) -> u64
        ensures { result ≡ option_map_or (λ head. head.number + 1) self.now.assembler.last 0 }
    {
        match self.assembler.last() {
            Some(last) => u64::from(last.number) + 1,
            None => 0,
        }
    }

    // The number of clear packets that the newest complete control message counts and that were not written.
    fn missing(&self) -> u64
        ensures { (total : ℕ) → self.now.written ≡ capped_count total →
            result ≡ option_map_or (λ head. head.clear) self.now.assembler.last 0 - total }
    {
        match self.assembler.last() {
            Some(last) => u64::from(last.clear).saturating_sub(self.written),
            None => 0,
        }
    }

    // Whether the packet, which is no message, is scrambled, and can't be one under the control word of the newest
    // message.
    #[inline(always)]
    #[tactic(auto, using(crate::proofs::Asked::clear_unstray, crate::proofs::Asked::stray_under, crate::proofs::Asked::wordless_unstray, crate::proofs::Asked::closed_unstray))]
    pub fn is_stray(&self, packet: &Packet) -> bool
        ensures { (card : CardFields) (past : List Heard) (n : ℕ) → IsListenerAfter card past self.now →
            result ≡ is_stray_heard past (Other n packet.now) }
    {
        if packet.scrambling() == 0 {
            return false;
        }
        match self.assembler.last() {
            Some(last) => !self.closed && is_foreign(last.word, packet),
            None => false,
        }
    }

    // Whether the packet, which is on the PID of control messages, is a part that says nothing new.
    #[inline(never)]
    #[tactic(auto, using(crate::proofs::Asked::again_is, crate::proofs::Asked::dropped_not_again, crate::proofs::Asked::faulty_not_again))]
    pub fn hears_again(&self, packet: &Packet) -> bool
        ensures { (card : CardFields) (past : List Heard) → IsListenerAfter card past self.now →
            result ≡ is_part_again past (heard_ecm (ecm_read packet.now)) }
    {
        match read_ecm(packet) {
            Ok(Some(part)) => self.assembler.partial.says_nothing_new(&part),
            _ => false,
        }
    }
}
