//! The stage: each packet is read and judged, and then taken.

ghost use Rattle.std.specs.Prelude.{◌≡◌, ◌&&◌, ℕ, List, false, not, Some, None, Err, OnOk, IsErrOf};
ghost use Rattle.sd_base.specs.Count.{IsCaused};
ghost use Rattle.sd_engine.specs.Stage.{sink_state_of, HasGrown, IsCutShort, IsAllowed};
ghost use Rattle.sd_message.specs.EmmJudged.{emm_read};
ghost use Rattle.sd_message.specs.EcmJudged.{ecm_read};
ghost use Rattle.sd_spec.specs.Heard.{hears, heard_emm, heard_ecm};
ghost use Rattle.sd_receive.specs.Filter.{heard_as, IsFormed};
ghost use Rattle.sd_receive.specs.Receiving.{HasReceived, IsSoundReceiver, MayReceive, Refusing, receiver_does};
ghost use Rattle.sd_receive.specs.Receiving.{receiver_ends, Leaving};
ghost use Rattle.sd_receive.specs.Receiving.{RefusesBy, CutsBy, receiver_refuses};

use crate::filter::{Channel, PacketKind, channel_of, differ, name_of};
use crate::receiver::Receiver;
use sd_base::Steps;
use sd_engine::{Stage, StageFault};
use sd_message::{StreamFault, read_ecm, read_emm};
use sd_packet::Packet;
use sd_ports::Sink;
use sd_psi::{Tuning, cat_tuning};
use std::sync::ledger::Ledger;

impl Receiver {
    /// Takes the next packet. If it is refused, all that is kept is as if it hadn't come, so that others can be taken
    /// after it.
    pub fn take<K: Sink, L: Ledger>(
        &mut self,
        packet: &Packet,
        out: &mut K,
        steps: &mut Steps<L>,
    ) -> Result<(), StageFault<StreamFault>>
        requires fit { IsSoundReceiver self.old }
        requires unrefused { self.old.refusal ≡ None }
        ensures value { OnOk result (HasGrown (sink_state_of K.Sink out.old) (sink_state_of K.Sink out.new) steps.old
            steps.new
            (receiver_does self.old packet.now self.new)) }
        ensures ok { OnOk result (IsSoundReceiver self.new) }
        ensures unrefused { self.new.refusal ≡ None }
        ensures fault { (fault : StreamFault) → result ≡ Err (StageFault.Refused fault) →
            HasGrown (sink_state_of K.Sink out.old) (sink_state_of K.Sink out.new) steps.old steps.new
            (Refusing self.old packet.now fault) }
        ensures stands { (fault : StreamFault) → result ≡ Err (StageFault.Refused fault) →
            (past : List (List ℕ)) → HasReceived past self.old → HasReceived past self.new }
        ensures fit { (fault : StreamFault) → result ≡ Err (StageFault.Refused fault) → IsSoundReceiver self.new }
        ensures prefix { IsErrOf result StageFault.Write → IsCutShort (sink_state_of K.Sink out.old)
            (sink_state_of K.Sink out.new)
            (IsAllowed (receiver_does self.old packet.now) (receiver_refuses self.old (Some packet.now))
            steps.old steps.new) }
        ensures cause { IsCaused (K.faults out.old) (K.faults out.new) (IsErrOf result StageFault.Write) }
    {
        self.take_by(true, packet, out, steps)
    }

    /// Takes the next packet as `take` does, but writes nothing of a packet that is refused, if no packet is buffered
    /// that can't be under the control word of the newest message. So a stream can go on behind a refused packet as if
    /// that hadn't come.
    pub fn take_whole<K: Sink, L: Ledger>(
        &mut self,
        packet: &Packet,
        out: &mut K,
        steps: &mut Steps<L>,
    ) -> Result<(), StageFault<StreamFault>>
        requires fit { IsSoundReceiver self.old }
        requires unrefused { self.old.refusal ≡ None }
        ensures value { OnOk result (HasGrown (sink_state_of K.Sink out.old) (sink_state_of K.Sink out.new) steps.old
            steps.new
            (receiver_does self.old packet.now self.new)) }
        ensures ok { OnOk result (IsSoundReceiver self.new) }
        ensures unrefused { self.new.refusal ≡ None }
        ensures fault { (fault : StreamFault) → result ≡ Err (StageFault.Refused fault) →
            HasGrown (sink_state_of K.Sink out.old) (sink_state_of K.Sink out.new) steps.old steps.new
            (Leaving self.old packet.now fault) }
        ensures stands { (fault : StreamFault) → result ≡ Err (StageFault.Refused fault) →
            (past : List (List ℕ)) → HasReceived past self.old → HasReceived past self.new }
        ensures fit { (fault : StreamFault) → result ≡ Err (StageFault.Refused fault) → IsSoundReceiver self.new }
        ensures same { (fault : StreamFault) → result ≡ Err (StageFault.Refused fault) →
            (self.new.card ≡ self.old.card) × (self.new.ended.last ≡ self.old.ended.last) }
        ensures prefix { IsErrOf result StageFault.Write → IsCutShort (sink_state_of K.Sink out.old)
            (sink_state_of K.Sink out.new)
            (CutsBy false self.old packet.now steps.old steps.new) }
        ensures cause { IsCaused (K.faults out.old) (K.faults out.new) (IsErrOf result StageFault.Write) }
    {
        self.take_by(false, packet, out, steps)
    }

    // Takes the next packet. If it is refused, what is written of it first is written if the receiver is strict.
    #[inline(always)]
    fn take_by<K: Sink, L: Ledger>(
        &mut self,
        strict: bool,
        packet: &Packet,
        out: &mut K,
        steps: &mut Steps<L>,
    ) -> Result<(), StageFault<StreamFault>>
        requires fit { IsSoundReceiver self.old }
        requires unrefused { self.old.refusal ≡ None }
        ensures value { OnOk result (HasGrown (sink_state_of K.Sink out.old) (sink_state_of K.Sink out.new) steps.old
            steps.new
            (receiver_does self.old packet.now self.new)) }
        ensures ok { OnOk result (IsSoundReceiver self.new) }
        ensures unrefused { self.new.refusal ≡ None }
        ensures fault { (fault : StreamFault) → result ≡ Err (StageFault.Refused fault) →
            HasGrown (sink_state_of K.Sink out.old) (sink_state_of K.Sink out.new) steps.old steps.new
            (RefusesBy strict self.old packet.now fault) }
        ensures stands { (fault : StreamFault) → result ≡ Err (StageFault.Refused fault) →
            (past : List (List ℕ)) → HasReceived past self.old → HasReceived past self.new }
        ensures fit { (fault : StreamFault) → result ≡ Err (StageFault.Refused fault) → IsSoundReceiver self.new }
        ensures same { (fault : StreamFault) → result ≡ Err (StageFault.Refused fault) →
            (self.new.card ≡ self.old.card) × (self.new.ended.last ≡ self.old.ended.last) }
        ensures prefix { IsErrOf result StageFault.Write → IsCutShort (sink_state_of K.Sink out.old)
            (sink_state_of K.Sink out.new)
            (CutsBy strict self.old packet.now steps.old steps.new) }
        ensures cause { IsCaused (K.faults out.old) (K.faults out.new) (IsErrOf result StageFault.Write) }
    {
        let Some(tuning) = self.tuning else {
            self.count = self.count.saturating_add(1);
            self.tuning = cat_tuning(self.card.ca(), packet);
            return Ok(());
        };
        match channel_of(tuning, packet) {
            Channel::Cat => self.take_heard(
                strict,
                tuning,
                packet,
                PacketKind::Dropped,
                out,
                steps,
            ),
            Channel::Emm => self.take_emm(strict, tuning, packet, out, steps),
            Channel::Ecm => self.take_ecm(strict, tuning, packet, out, steps),
            Channel::Other => self.take_heard(
                strict,
                tuning,
                packet,
                PacketKind::Other,
                out,
                steps,
            ),
        }
    }

    // Takes the next packet, on the PID of entitlements. What it reads of a message takes some 300 bytes, which a call
    // of its own keeps from all other packets.
    #[inline(never)]
    fn take_emm<K: Sink, L: Ledger>(
        &mut self,
        strict: bool,
        tuning: Tuning,
        packet: &Packet,
        out: &mut K,
        steps: &mut Steps<L>,
    ) -> Result<(), StageFault<StreamFault>>
        requires fit { IsSoundReceiver self.old }
        requires unrefused { self.old.refusal ≡ None }
        requires tuned { self.old.tuning ≡ Some tuning }
        requires on { (h number : ℕ) → hears h tuning number packet.now ≡ heard_emm (emm_read h packet.now) }
        ensures value { OnOk result (HasGrown (sink_state_of K.Sink out.old) (sink_state_of K.Sink out.new) steps.old
            steps.new
            (receiver_does self.old packet.now self.new)) }
        ensures ok { OnOk result (IsSoundReceiver self.new) }
        ensures unrefused { self.new.refusal ≡ None }
        ensures fault { (fault : StreamFault) → result ≡ Err (StageFault.Refused fault) →
            HasGrown (sink_state_of K.Sink out.old) (sink_state_of K.Sink out.new) steps.old steps.new
            (RefusesBy strict self.old packet.now fault) }
        ensures stands { (fault : StreamFault) → result ≡ Err (StageFault.Refused fault) →
            (past : List (List ℕ)) → HasReceived past self.old → HasReceived past self.new }
        ensures fit { (fault : StreamFault) → result ≡ Err (StageFault.Refused fault) → IsSoundReceiver self.new }
        ensures same { (fault : StreamFault) → result ≡ Err (StageFault.Refused fault) →
            (self.new.card ≡ self.old.card) × (self.new.ended.last ≡ self.old.ended.last) }
        ensures prefix { IsErrOf result StageFault.Write → IsCutShort (sink_state_of K.Sink out.old)
            (sink_state_of K.Sink out.new)
            (CutsBy strict self.old packet.now steps.old steps.new) }
        ensures cause { IsCaused (K.faults out.old) (K.faults out.new) (IsErrOf result StageFault.Write) }
    {
        match &read_emm(self.card.height(), packet) {
            Ok(Some(emm)) => self.take_heard(
                strict,
                tuning,
                packet,
                PacketKind::Entitles(emm),
                out,
                steps,
            ),
            Ok(None) => self.take_heard(strict, tuning, packet, PacketKind::Dropped, out, steps),
            Err(fault) => self.take_heard(
                strict,
                tuning,
                packet,
                PacketKind::BadEmm(*fault),
                out,
                steps,
            ),
        }
    }

    // Takes the next packet, on the PID of control messages.
    #[inline(never)]
    fn take_ecm<K: Sink, L: Ledger>(
        &mut self,
        strict: bool,
        tuning: Tuning,
        packet: &Packet,
        out: &mut K,
        steps: &mut Steps<L>,
    ) -> Result<(), StageFault<StreamFault>>
        requires fit { IsSoundReceiver self.old }
        requires unrefused { self.old.refusal ≡ None }
        requires tuned { self.old.tuning ≡ Some tuning }
        requires on { (h number : ℕ) → hears h tuning number packet.now ≡ heard_ecm (ecm_read packet.now) }
        ensures value { OnOk result (HasGrown (sink_state_of K.Sink out.old) (sink_state_of K.Sink out.new) steps.old
            steps.new
            (receiver_does self.old packet.now self.new)) }
        ensures ok { OnOk result (IsSoundReceiver self.new) }
        ensures unrefused { self.new.refusal ≡ None }
        ensures fault { (fault : StreamFault) → result ≡ Err (StageFault.Refused fault) →
            HasGrown (sink_state_of K.Sink out.old) (sink_state_of K.Sink out.new) steps.old steps.new
            (RefusesBy strict self.old packet.now fault) }
        ensures stands { (fault : StreamFault) → result ≡ Err (StageFault.Refused fault) →
            (past : List (List ℕ)) → HasReceived past self.old → HasReceived past self.new }
        ensures fit { (fault : StreamFault) → result ≡ Err (StageFault.Refused fault) → IsSoundReceiver self.new }
        ensures same { (fault : StreamFault) → result ≡ Err (StageFault.Refused fault) →
            (self.new.card ≡ self.old.card) × (self.new.ended.last ≡ self.old.ended.last) }
        ensures prefix { IsErrOf result StageFault.Write → IsCutShort (sink_state_of K.Sink out.old)
            (sink_state_of K.Sink out.new)
            (CutsBy strict self.old packet.now steps.old steps.new) }
        ensures cause { IsCaused (K.faults out.old) (K.faults out.new) (IsErrOf result StageFault.Write) }
    {
        match &read_ecm(packet) {
            Ok(Some(part)) => self.take_heard(
                strict,
                tuning,
                packet,
                PacketKind::Controls(part),
                out,
                steps,
            ),
            Ok(None) => self.take_heard(strict, tuning, packet, PacketKind::Dropped, out, steps),
            Err(fault) => self.take_heard(
                strict,
                tuning,
                packet,
                PacketKind::BadEcm(*fault),
                out,
                steps,
            ),
        }
    }

    // Takes the next packet, which was read as `heard`. It is judged before anything is changed.
    #[inline(always)]
    fn take_heard<K: Sink, L: Ledger>(
        &mut self,
        strict: bool,
        tuning: Tuning,
        packet: &Packet,
        heard: PacketKind<'_>,
        out: &mut K,
        steps: &mut Steps<L>,
    ) -> Result<(), StageFault<StreamFault>>
        requires fit { IsSoundReceiver self.old }
        requires unrefused { self.old.refusal ≡ None }
        requires tuned { self.old.tuning ≡ Some tuning }
        requires heard { (number : ℕ) → heard_as number packet.now heard
            ≡ hears self.old.card.height tuning number packet.now }
        requires form { IsFormed self.old.card.height heard }
        ensures value { OnOk result (HasGrown (sink_state_of K.Sink out.old) (sink_state_of K.Sink out.new) steps.old
            steps.new
            (receiver_does self.old packet.now self.new)) }
        ensures ok { OnOk result (IsSoundReceiver self.new) }
        ensures unrefused { self.new.refusal ≡ None }
        ensures fault { (fault : StreamFault) → result ≡ Err (StageFault.Refused fault) →
            HasGrown (sink_state_of K.Sink out.old) (sink_state_of K.Sink out.new) steps.old steps.new
            (RefusesBy strict self.old packet.now fault) }
        ensures stands { (fault : StreamFault) → result ≡ Err (StageFault.Refused fault) →
            (past : List (List ℕ)) → HasReceived past self.old → HasReceived past self.new }
        ensures fit { (fault : StreamFault) → result ≡ Err (StageFault.Refused fault) → IsSoundReceiver self.new }
        ensures same { (fault : StreamFault) → result ≡ Err (StageFault.Refused fault) →
            (self.new.card ≡ self.old.card) × (self.new.ended.last ≡ self.old.ended.last) }
        ensures prefix { IsErrOf result StageFault.Write → IsCutShort (sink_state_of K.Sink out.old)
            (sink_state_of K.Sink out.new)
            (CutsBy strict self.old packet.now steps.old steps.new) }
        ensures cause { IsCaused (K.faults out.old) (K.faults out.new) (IsErrOf result StageFault.Write) }
    {
        let name = name_of(heard);
        let begins = differ(self.name, name);
        if self.is_over(begins) {
            self.count = self.count.saturating_add(1);
            return Ok(());
        }
        let number = self.count;
        let mut key = None;
        match self
            .session
            .judge(&self.card, number, heard, begins, &mut key, steps)
        {
            Ok(()) => {}
            Err(fault) => return Err(StageFault::Refused(fault)),
        }
        self.ended.turn(begins, self.name, &mut self.session);
        if let Err(fault) = self.session.take(
            strict, &self.card, number, tuning, packet, heard, key, out,
        ) {
            return Err(fault);
        }
        self.count = number.saturating_add(1);
        self.name = name.or(self.name);
        Ok(())
    }

    // Whether the current run is closed, and what comes doesn't begin another.
    #[inline(always)]
    fn is_over(&self, begins: bool) -> bool
        ensures { result ≡ (self.now.session.closed && not begins) }
    {
        self.session.closed && !begins
    }
}

impl<K: Sink, L: Ledger> Stage<K, L> for Receiver {
    type Fault = StreamFault;

    ghost live = { λ s. MayReceive s };

    ghost kept = { λ s. s.refusal };

    ghost does = { receiver_does };

    ghost ends = { receiver_ends };

    ghost refuses = { receiver_refuses };

    fn offer(
        &mut self,
        packet: &Packet,
        out: &mut K,
        steps: &mut Steps<L>,
    ) -> Result<(), StageFault<StreamFault>> {
        if let Some(fault) = self.refusal {
            return Err(StageFault::Refused(fault));
        }
        let result = self.take(packet, out, steps);
        if let Err(StageFault::Refused(fault)) = result {
            self.refusal = Some(fault);
        }
        result
    }

    fn close(&mut self, out: &mut K, steps: &mut Steps<L>) -> Result<(), StageFault<StreamFault>> {
        match self.refusal {
            Some(fault) => Err(StageFault::Refused(fault)),
            None => Ok(()),
        }
    }
}
