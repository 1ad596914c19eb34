//! A complete ECM: what it confirms is written, and then it is kept.

ghost use Rattle.std.specs.Prelude.{◌≡◌, ◌<◌, ◌∷◌, [], ℕ, true, List, option_map, Some, None, Err, IfErr, MatchResult};
ghost use Rattle.std.specs.Prelude.{IsErrOf};
ghost use Rattle.sd_base.specs.Count.{IsCaused};
ghost use Rattle.sd_site_cards.specs.CardFields.{CardFields, card_fields_of};
ghost use Rattle.sd_message.specs.EcmForm.{AreShort};
ghost use Rattle.sd_message.specs.EcmParts.{message_of};
ghost use Rattle.sd_message.specs.declared.ecm_part.EcmPart.{EcmPart};
ghost use Rattle.sd_engine.specs.Stage.{sink_state_of};
ghost use Rattle.sd_spec.specs.Heard.{Heard, Controls};
ghost use Rattle.sd_spec.specs.Keys.{key_at};
ghost use Rattle.sd_spec.specs.Offered.{word_fault};
ghost use Rattle.sd_receive.specs.EcmAssembler.{IsCollected, IsComplete};
ghost use Rattle.sd_receive.specs.PacketBuffer.{after_message};
ghost use Rattle.sd_receive.specs.Writing.{WriteOutcome};
ghost use Rattle.sd_receive.specs.Buffered.{pair_wrote};
ghost use Rattle.sd_receive.specs.Session.{IsListenerAfter, IsListenerAtMessage, TakesMessage, RefusesHeardMessage};
ghost use Rattle.sd_receive.specs.Session.{CutsMessage, SessionOutcome, IsWordTold, fault_first};
ghost use Rattle.sd_receive.specs.PeriodKeys.{key_kept};

use crate::buffer::BufferFault;
use crate::ecm::word_of;
use crate::session::Session;
use sd_engine::StageFault;
use sd_message::{EcmHead, StreamFault};
use sd_ports::Sink;
use sd_psi::Tuning;
use sd_site_cards::Card;

// The fault of a control word for which its message is refused before anything is written, if it is.
fn early_fault(strict: bool, word: &Result<Option<[u8; 32]>, StreamFault>) -> Option<StreamFault>
    ensures { result ≡ fault_first strict word.now }
{
    match word {
        Err(fault) if !strict => Some(*fault),
        _ => None,
    }
}

impl Session {
    // Takes a control message, which packet `number` of the stream completes. One with a wrong control word is refused:
    // if the receiver is strict, after what the message confirms is written, and else before.
    pub fn complete<K: Sink>(
        &mut self,
        strict: bool,
        card: &Card,
        number: u64,
        tuning: Tuning,
        head: &EcmHead,
        out: &mut K,
    ) -> Result<(), StageFault<StreamFault>>
        requires ecm { tuning.ecm < 8192 }
        requires live { (past : List Heard) × (part : EcmPart) ×
            IsListenerAtMessage (card_fields_of card.now) past part head.now self.old }
        ensures value { SessionOutcome (TakesMessage true (card_fields_of card.now) tuning number head.now self.old)
            (RefusesHeardMessage strict (card_fields_of card.now) tuning number head.now self.old)
            (CutsMessage strict (card_fields_of card.now) tuning number head.now self.old)
            (sink_state_of K.Sink out.old) (sink_state_of K.Sink out.new) self.new result }
        ensures unchanged { (fault : StreamFault) → result ≡ Err (StageFault.Refused fault) → self.new ≡ self.old }
        ensures cause { IsCaused (K.faults out.old) (K.faults out.new) (IsErrOf result StageFault.Write) }
    {
        let word = word_of(number, head, self.keys.key_of(head.period));
        match early_fault(strict, &word) {
            Some(fault) => Err(StageFault::Refused(fault)),
            None => self.write_out(card, number, tuning, head, word, out),
        }
    }

    // Writes what a control message confirms, and then keeps the message, or refuses it if its control word is wrong.
    fn write_out<K: Sink>(
        &mut self,
        card: &Card,
        number: u64,
        tuning: Tuning,
        head: &EcmHead,
        word: Result<Option<[u8; 32]>, StreamFault>,
        out: &mut K,
    ) -> Result<(), StageFault<StreamFault>>
        requires ecm { tuning.ecm < 8192 }
        requires live { (past : List Heard) × (part : EcmPart) ×
            IsListenerAtMessage (card_fields_of card.now) past part head.now self.old }
        requires word { IsWordTold number head.now (key_kept self.old.keys head.now.period) word }
        ensures value { SessionOutcome (TakesMessage true (card_fields_of card.now) tuning number head.now self.old)
            (RefusesHeardMessage true (card_fields_of card.now) tuning number head.now self.old)
            (CutsMessage true (card_fields_of card.now) tuning number head.now self.old)
            (sink_state_of K.Sink out.old) (sink_state_of K.Sink out.new) self.new result }
        ensures unchanged { (fault : StreamFault) → result ≡ Err (StageFault.Refused fault) → self.new ≡ self.old }
        ensures cause { IsCaused (K.faults out.old) (K.faults out.new) (IsErrOf result StageFault.Write) }
    {
        match self.write(card, tuning, head, out) {
            Ok(count) => match self.open(head, word) {
                Ok(()) => {
                    self.written = self.written.saturating_add(count);
                    Ok(())
                }
                Err(fault) => Err(StageFault::Refused(fault)),
            },
            Err(BufferFault::Parity(held)) => Err(StageFault::Refused(StreamFault::Parity(held))),
            Err(BufferFault::Write) => {
                // The state after the packet doesn't depend on the write that failed.
                let _ = self.open(head, word);
                Err(StageFault::Write)
            }
        }
    }

    // Writes what the message confirms of the buffered packets, if its `since` is at most the number of the one before
    // it. It returns the number of packets written.
    fn write<K: Sink>(
        &self,
        card: &Card,
        tuning: Tuning,
        head: &EcmHead,
        out: &mut K,
    ) -> Result<u64, BufferFault>
        requires ecm { tuning.ecm < 8192 }
        requires short { AreShort self.now.assembler.coming.places.items }
        ensures value { WriteOutcome (pair_wrote self.now.assembler.last self.now.buffer head.now.since card.now.ca
            tuning.ecm self.now.assembler.coming.places.items) (sink_state_of K.Sink out.old) (sink_state_of K.Sink
            out.new) result }
        ensures cause { IsCaused (K.faults out.old) (K.faults out.new) (IsErrOf result BufferFault.Write) }
    {
        match self.assembler.last() {
            Some(last) if head.since <= last.number => {
                self.buffer
                    .write(card.ca(), tuning.ecm, self.assembler.coming(), out)
            }
            _ => Ok(0),
        }
    }

    // Keeps the message and begins to buffer packets after it, if its control word isn't wrong. A wrong one changes
    // nothing.
    fn open(
        &mut self,
        head: &EcmHead,
        word: Result<Option<[u8; 32]>, StreamFault>,
    ) -> Result<(), StreamFault>
        requires live { (card : CardFields) × (past : List Heard) × (part : EcmPart) ×
            IsListenerAtMessage card past part head.now self.old }
        ensures value { (number : ℕ) (card : CardFields) (past : List Heard) (part : EcmPart) →
            IsListenerAtMessage card past part head.now self.old →
            IsWordTold number head.now (key_kept self.old.keys head.now.period) word →
            MatchResult result
            (λ _. (word_fault number (message_of head.now self.old.assembler.coming.places.items)
            (key_at card past head.now.period) ≡ None)
            × IsListenerAfter card (Controls part ∷ past) self.new)
            (λ fault. word_fault number (message_of head.now self.old.assembler.coming.places.items)
            (key_at card past head.now.period)
            ≡ Some fault) }
        ensures written { self.new.written ≡ self.old.written }
        ensures unchanged { IfErr result (λ _. self.new ≡ self.old) }
    {
        match word {
            Ok(word) => {
                self.keys.message(head.period);
                self.renew(head, word);
                Ok(())
            }
            Err(fault) => Err(fault),
        }
    }

    // Keeps the message, and buffers packets from now on if its control word is known.
    fn renew(&mut self, head: &EcmHead, word: Option<[u8; 32]>)
        requires live { (past : List Heard) × (part : EcmPart) × IsComplete past part head.now self.old.assembler }
        ensures assembler { (past : List Heard) (part : EcmPart) → IsComplete past part head.now self.old.assembler →
            IsCollected (Controls part ∷ past) self.new.assembler }
        ensures buffer { self.new.buffer ≡
            option_map (λ w. after_message (message_of head.now self.old.assembler.coming.places.items) w []) word }
        ensures closed { self.new.closed ≡ head.now.closing }
        ensures same { (self.new.keys ≡ self.old.keys) × (self.new.written ≡ self.old.written) }
    {
        self.assembler.settle();
        match word {
            Some(word) => self.buffer.open(head.word, word, self.assembler.places()),
            None => self.buffer.reset(),
        }
        self.closed = head.closing;
    }
}
