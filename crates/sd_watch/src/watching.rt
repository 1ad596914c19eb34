ghost use Rattle.std.specs.Prelude.{◌≡◌, ◌+◌, ◌<◌, ◌≤◌, ◌^◌, ◌∷◌, List, ℕ, [], None, IfOk, IsErr, length, option_map};
ghost use Rattle.sd_base.specs.Count.{HasCause};
ghost use Rattle.sd_engine.specs.Stage.{sink_state_of, HasGrown, IsCutShort};
ghost use Rattle.sd_spec.specs.Ending.{ending_of};
ghost use Rattle.sd_spec.specs.Counting.{is_doubled as is_doubled_at};
ghost use Rattle.sd_spec.specs.Reports.{report_of};
ghost use Rattle.sd_receive.specs.Receiving.{HasReceived, IsSoundReceiver};
ghost use Rattle.sd_watch.specs.Numbered.{stream_fault_at};
ghost use Rattle.sd_watch.specs.Taking.{report_on, taker_does, taker_stops, uncounted_at};
ghost use Rattle.sd_watch.specs.Tallied.{tally_add, tally_refuse};
ghost use Rattle.sd_watch.specs.Watching.{watcher_card, counted_of, IsWatchKept, IsWatcherReady, IsRecent, IsWatching};
ghost use Rattle.sd_watch.specs.Watching.{watcher_does, watcher_stops};

use crate::recent::Recent;
use crate::renumber::renumber;
use crate::uncounted::{Uncounted, add, is_marked, refuse};
use crate::watcher::Watcher;
use sd_base::{NoMemory, Steps};
use sd_engine::StageFault;
use sd_message::StreamFault;
use sd_packet::Packet;
use sd_ports::{PortFault, Sink};
use sd_receive::{EndedRun, Receiver};
use sd_site_cards::Card;
use sd_spec::{Ending, Report, Tally};
use sd_tree_keys::Leaf;
use std::alloc::Global;
use std::sync::ledger::Ledger;

// What is told of no packets.
const NO_TALLY: Tally = Tally {
    marked: 0,
    doubled: 0,
    odd: 0,
    refused: 0,
    first: None,
};

impl Watcher {
    /// A watcher with this card, before the first packet. All memory that it needs is allocated here.
    pub fn new(alloc: Global, card: Card) -> Result<Watcher, NoMemory>
        ensures value { IfOk result (IsWatching []) }
        ensures card { IfOk result (λ watcher. watcher.receiver.card ≡ card) }
        ensures ready { IfOk result IsWatcherReady }
    {
        let recent = Recent::new(alloc)?;
        let receiver = Receiver::new(alloc, card)?;
        Ok(Watcher {
            receiver,
            recent,
            packets: 0,
            tally: NO_TALLY,
        })
    }

    /// Takes the next packet. If it counts, what the receiver writes of it is written. If it turns to another run, the
    /// report on all packets before it is returned [this project, docs/FORMATS.md, Receiver].
    pub fn watch<K: Sink, L: Ledger>(
        &mut self,
        packet: &Packet,
        out: &mut K,
        steps: &mut Steps<L>,
    ) -> Result<Option<Report>, PortFault>
        requires ready { IsWatcherReady self.old }
        ensures value { IfOk result (λ report. HasGrown (sink_state_of K.Sink out.old) (sink_state_of K.Sink out.new)
            steps.old steps.new (watcher_does self.old packet.now self.new report)) }
        ensures ready { IfOk result (λ _. IsWatcherReady self.new) }
        ensures prefix { IsErr result → IsCutShort (sink_state_of K.Sink out.old) (sink_state_of K.Sink out.new)
            (watcher_stops self.old packet.now steps.old steps.new) }
        ensures cause { HasCause (K.faults out.old) (K.faults out.new) result }
    {
        match self.judge(packet) {
            Some(reason) => {
                self.pass_over(reason);
                Ok(None)
            }
            None => self.take(packet, out, steps),
        }
    }

    /// What is told of the packets so far, and of the current run.
    pub fn report(&self) -> Report
        ensures { (s : List (List ℕ)) → IsWatching s self.now → length s ≤ 2 ^ 48 →
            result ≡ report_of (watcher_card self.now) s }
    {
        Report {
            tally: self.tally,
            packets: self.packets,
            written: self.receiver.written(),
            run: self.receiver.name(),
            ending: self.receiver.run_end(),
        }
    }

    /// How the stream ends, if it ends here: the endings of all runs so far, together [this project, docs/FORMATS.md,
    /// Receiver].
    pub fn ending(&self) -> Ending
        ensures { (s : List (List ℕ)) → IsWatching s self.now →
            result ≡ ending_of (watcher_card self.now) (counted_of (watcher_card self.now) s) }
    {
        self.receiver.ending()
    }

    /// The leaf of the watcher's card.
    pub fn leaf(&self) -> Leaf
        ensures { result ≡ self.now.receiver.card.leaf }
    {
        self.receiver.leaf()
    }

    // Why the packet doesn't count, if that is known before the receiver takes it.
    #[inline(always)]
    #[tactic(auto, unfolding(crate::specs::Taking::uncounted_at))]
    fn judge(&self, packet: &Packet) -> Option<Uncounted>
        ensures { (past : List (List ℕ)) (n : ℕ) (tally : Tally) → IsWatchKept past n tally self.now →
            result ≡ uncounted_at (watcher_card self.now) past packet.now }
    {
        if is_marked(packet) {
            Some(Uncounted::Marked)
        } else if self.is_doubled(packet) {
            Some(Uncounted::Doubled)
        } else if self.receiver.is_stray(packet) {
            Some(Uncounted::Odd)
        } else {
            None
        }
    }

    // Whether the packet comes again, after those that counted.
    #[inline(always)]
    #[tactic(auto, unfolding(sd_spec::specs::Counting::is_doubled))]
    fn is_doubled(&self, packet: &Packet) -> bool
        ensures { (past : List (List ℕ)) (n : ℕ) (tally : Tally) → IsWatchKept past n tally self.now →
            result ≡ is_doubled_at (watcher_card self.now) past packet.now }
    {
        self.recent.has(packet) || self.receiver.hears_again(packet)
    }

    // Counts a packet that doesn't count for this reason.
    fn pass_over(&mut self, reason: Uncounted)
        ensures kept { (past : List (List ℕ)) (n : ℕ) (tally : Tally) → IsWatchKept past n tally self.old →
            n < 2 ^ 48 → IsWatchKept past (n + 1) (tally_add tally reason) self.new }
        ensures same { self.new.receiver ≡ self.old.receiver }
    {
        add(&mut self.tally, reason);
        self.packets = self.packets.saturating_add(1);
    }

    // Gives the receiver a packet, which counts if it isn't refused.
    #[inline(always)]
    fn take<K: Sink, L: Ledger>(
        &mut self,
        packet: &Packet,
        out: &mut K,
        steps: &mut Steps<L>,
    ) -> Result<Option<Report>, PortFault>
        requires ready { IsWatcherReady self.old }
        ensures value { IfOk result (λ report. HasGrown (sink_state_of K.Sink out.old) (sink_state_of K.Sink out.new)
            steps.old steps.new (taker_does self.old packet.now self.new report)) }
        ensures ready { IfOk result (λ _. IsWatcherReady self.new) }
        ensures prefix { IsErr result → IsCutShort (sink_state_of K.Sink out.old) (sink_state_of K.Sink out.new)
            (taker_stops self.old packet.now steps.old steps.new) }
        ensures cause { HasCause (K.faults out.old) (K.faults out.new) result }
    {
        let written = self.receiver.written();
        match self.receiver.take_whole(packet, out, steps) {
            Ok(()) => Ok(self.keep(packet, written)),
            Err(StageFault::Refused(fault)) => {
                self.refuse(fault);
                Ok(None)
            }
            Err(StageFault::Write) => Err(PortFault),
        }
    }

    // Keeps a packet that the receiver took, before which this number was written. If it turned to another run, the
    // report before it is returned.
    #[inline(always)]
    fn keep(&mut self, packet: &Packet, written: u64) -> Option<Report>
        ensures value { result ≡ option_map (report_on self.old.tally self.old.packets written)
            self.old.receiver.ended.last }
        ensures kept { (past : List (List ℕ)) (n : ℕ) → HasReceived (packet.now ∷ past) self.old.receiver →
            IsRecent past self.old.recent → self.old.packets ≡ n → n < 2 ^ 48 →
            IsWatchKept (packet.now ∷ past) (n + 1) self.old.tally self.new }
        ensures ready { IsSoundReceiver self.old.receiver → self.old.receiver.refusal ≡ None → IsWatcherReady self.new }
        ensures card { self.new.receiver.card ≡ self.old.receiver.card }
    {
        let ended = self.receiver.take_ended();
        let report = self.report_on(written, ended);
        self.recent.push(packet);
        self.packets = self.packets.saturating_add(1);
        report
    }

    // The report before a packet, if that ended a run.
    #[inline(always)]
    fn report_on(&self, written: u64, ended: Option<EndedRun>) -> Option<Report>
        ensures { result ≡ option_map (report_on self.now.tally self.now.packets written) ended }
    {
        match ended {
            Some(EndedRun { run, ending }) => Some(Report {
                tally: self.tally,
                packets: self.packets,
                written,
                run,
                ending,
            }),
            None => None,
        }
    }

    // Counts a packet that the receiver refused.
    fn refuse(&mut self, fault: StreamFault)
        ensures kept { (past : List (List ℕ)) (n : ℕ) (tally : Tally) → IsWatchKept past n tally self.old →
            n < 2 ^ 48 → IsWatchKept past (n + 1) (tally_refuse tally (stream_fault_at n fault)) self.new }
        ensures same { self.new.receiver ≡ self.old.receiver }
    {
        refuse(&mut self.tally, renumber(fault, self.packets));
        self.packets = self.packets.saturating_add(1);
    }
}
