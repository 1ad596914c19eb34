//! Which packets in the buffer an ECM confirms, and what is written for them.

ghost use Rattle.std.specs.Prelude.{◌≡◌, ◌≤◌, ◌∷◌, ℕ, List, [], IsErrOf, get_or, length, MatchResult, Ok, Err};
ghost use Rattle.std.specs.Prelude.{if◌then◌else◌};
ghost use Rattle.std.specs.Result.{OnOk, OnErr, IfErr};
ghost use Rattle.sd_base.specs.Count.{IsCaused};
ghost use Rattle.sd_engine.specs.Stage.{sink_state_of, TookBytes};
ghost use Rattle.sd_packet.specs.Header.{pid_of};
ghost use Rattle.sd_spec.specs.Confirmed.{is_foreign as is_foreign_packet, is_near_to, judged_packet, unmarked};
ghost use Rattle.sd_spec.specs.Confirmed.{written_from};
ghost use Rattle.sd_receive.specs.Writing.{WriteOutcome, HasStopped, IsReleaseReady, HasPositionLedTo, holding_in};
ghost use Rattle.sd_receive.specs.Writing.{segment_in, AreNearPids};
ghost use Rattle.sd_receive.specs.Writing.{AreConfirmed};
ghost use Rattle.sd_receive.specs.declared.buffer.tracked.TheConstants.{PIDS};

use crate::buffer::BufferFault;
use crate::buffer::pid_set::PidSet;
use crate::buffer::tracked::{HeldPacket, PIDS, TrackedPackets};
use crate::ecm::{ControlWord, is_foreign};
use sd_cipher::descramble;
use sd_message::Place;
use sd_packet::Packet;
use sd_ports::{Sink, write_all};
use sd_psi::restore_pmt;

// The greatest distance of a confirmed position above the one that the buffered packets lead to.
const RESIDUAL: u64 = 15;

// The packets buffered after a control message, and what the next one and the card say of them.
#[derive(Clone, Copy)]
pub struct Release<'a> {
    pub word: &'a ControlWord,
    pub tracks: &'a TrackedPackets,
    pub ca: u16,
    pub ecm: u16,
    // The PIDs and positions in the next control message.
    pub last: &'a [Place],
}

impl<'a> Release<'a> {
    // Writes what is confirmed, up to the first packet that is refused. It returns the number of packets written.
    pub fn write<K: Sink>(&self, out: &mut K) -> Result<u64, BufferFault>
        requires ready { IsReleaseReady self.now }
        ensures value { WriteOutcome (written_from (segment_in self.now) [] (holding_in self.now).held)
            (sink_state_of K.Sink out.old) (sink_state_of K.Sink out.new) result }
        ensures cause { IsCaused (K.faults out.old) (K.faults out.new) (IsErrOf result BufferFault.Write) }
    {
        let confirmed = self.confirmed();
        self.write_by(&confirmed, out)
    }

    // Writes what is confirmed, if these are the PIDs that are.
    fn write_by<K: Sink>(&self, confirmed: &PidSet, out: &mut K) -> Result<u64, BufferFault>
        requires ready { IsReleaseReady self.now }
        requires confirmed { AreConfirmed self.now confirmed.now }
        ensures value { WriteOutcome (written_from (segment_in self.now) [] (holding_in self.now).held)
            (sink_state_of K.Sink out.old) (sink_state_of K.Sink out.new) result }
        ensures cause { IsCaused (K.faults out.old) (K.faults out.new) (IsErrOf result BufferFault.Write) }
    {
        let mut count = 0;
        for held in &self.tracks.held {
            let mut packet = held.packet;
            let written = self.judge(held, confirmed, &mut packet)?;
            if written {
                put(&packet, out)?;
                count += 1;
            }
        }
        Ok(count)
    }

    // The PIDs that are confirmed, which are the same for all buffered packets.
    #[tactic(auto, using(crate::proofs::HoldJudging::near_confirmed))]
    fn confirmed(&self) -> PidSet
        requires ready { IsReleaseReady self.now }
        ensures { AreConfirmed self.now result }
    {
        confirmed_in(&self.tracks.table, self.last)
    }

    // Turns a buffered packet into the clear packet that is written for it, and answers whether it is written. A
    // scrambled packet isn't written if its PID isn't confirmed, and is refused if it can't be one under the control
    // word.
    fn judge(
        &self,
        held: &HeldPacket,
        confirmed: &PidSet,
        packet: &mut Packet,
    ) -> Result<bool, BufferFault>
        requires ready { IsReleaseReady self.now }
        requires confirmed { AreConfirmed self.now confirmed.now }
        requires position { held.now.position ≤ get_or self.now.tracks.now.table.items (pid_of held.now.packet) 0 }
        requires same { packet.old ≡ held.now.packet }
        ensures { (before : List (List ℕ)) → HasPositionLedTo self.now before held.now →
            MatchResult result
            (λ written. judged_packet (segment_in self.now) before (held.now.number, held.now.packet)
            ≡ Ok (if written then packet.new ∷ [] else []))
            (λ fault. (fault ≡ BufferFault.Parity held.now.number)
            × (judged_packet (segment_in self.now) before (held.now.number, held.now.packet) ≡ Err held.now.number)) }
    {
        if packet.scrambling() == 0 {
            self.unmark(packet);
            return Ok(true);
        }
        if self.is_foreign(packet) {
            return Err(BufferFault::Parity(held.number));
        }
        if !confirmed.has(packet.pid()) {
            return Ok(false);
        }
        descramble(packet, &self.word.bytes, held.position);
        Ok(true)
    }

    // Whether the packet can't be one under the control word.
    #[tactic(auto, unfolding(crate::specs::Writing::segment_in, crate::specs::Writing::segment_of))]
    fn is_foreign(&self, packet: &Packet) -> bool
        ensures { result ≡ is_foreign_packet (segment_in self.now) packet.now }
    {
        is_foreign(self.word.number, packet)
    }

    // Removes the project's CA_descriptor from a packet that is a PMT with it.
    #[tactic(auto, using(sd_spec::proofs::Unmarked::marked_back, sd_spec::proofs::Unmarked::unplaced_stays))]
    fn unmark(&self, packet: &mut Packet)
        requires ready { IsReleaseReady self.now }
        ensures { packet.new ≡ unmarked (segment_in self.now) packet.old }
    {
        if packet.is_placed() {
            let _ = restore_pmt(packet, self.ca, self.ecm);
        }
    }
}

// Writes a packet.
#[tactic(auto, using(sd_engine::proofs::Vessels::too_short))]
fn put<K: Sink>(packet: &Packet, out: &mut K) -> Result<(), BufferFault>
    ensures ok { OnOk result (TookBytes (sink_state_of K.Sink out.old) (sink_state_of K.Sink out.new) packet.now) }
    ensures fault { IfErr result (λ fault. fault ≡ BufferFault.Write) }
    ensures prefix { OnErr result (HasStopped (sink_state_of K.Sink out.old) (sink_state_of K.Sink out.new)
        packet.now) }
    ensures cause { IsCaused (K.faults out.old) (K.faults out.new) (IsErrOf result BufferFault.Write) }
{
    match write_all(out, packet.bytes()) {
        Ok(()) => Ok(()),
        Err(_) => Err(BufferFault::Write),
    }
}

// The PIDs that are confirmed: the buffered packets lead to these positions, by PID, and these are the next message's
// places. Of places of one PID the first counts.
fn confirmed_in(tracked: &[u64], places: &[Place]) -> PidSet
    requires { length tracked.now ≡ PIDS }
    ensures { AreNearPids tracked.now places.now result }
{
    let mut confirmed = PidSet::none();
    for i in (0..places.len()).rev() {
        let Place { pid, position } = places[i];
        let index = usize::from(pid);
        if index < PIDS {
            confirmed.set(pid, is_near(tracked[index], position));
        }
    }
    confirmed
}

// Whether a position is at most 15 above the one that the buffered packets lead to, and not below it.
#[tactic(auto, using(crate::proofs::Confirming::near_by, crate::proofs::Confirming::below))]
fn is_near(tracked: u64, position: u64) -> bool
    ensures { result ≡ is_near_to tracked position }
{
    tracked <= position && position - tracked <= RESIDUAL
}
