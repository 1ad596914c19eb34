ghost use Rattle.std.specs.Prelude.{◌≡◌, ℕ, List, Option, None, Some, Err, OnOk, IsErrOf};
ghost use Rattle.sd_base.specs.Count.{IsCaused};
ghost use Rattle.sd_engine.specs.Stage.{HasGrown, IsCutShort, IsAllowed, sink_state_of};

use sd_base::Steps;
use sd_packet::Packet;
use sd_ports::Sink;
use std::sync::ledger::Ledger;

/// Why a stage stopped.
#[derive(Clone, Copy, PartialEq, Eq)]
pub enum StageFault<F> {
    /// A write failed.
    Write,
    /// The stage refused the packet, or the end.
    Refused(F),
}

/// What the packets of a stream go through, one by one.
pub trait Stage<K: Sink, L: Ledger> {
    type Fault: Copy;

    /// Whether it may be called: no write has failed, and it has not been closed.
    ghost live: { Self → Type 0 };

    /// The refusal that it keeps, if it has one.
    ghost kept: { Self → Option Self.Fault };

    /// The outcome of a packet: the stage before, the packet, the stage after it, the bytes written and the
    /// steps taken.
    ghost does: { Self → List ℕ → Self → List ℕ → ℕ → Type 0 };

    /// The outcome of the end of the stream.
    ghost ends: { Self → Self → List ℕ → ℕ → Type 0 };

    /// The outcome of a refusal, of a packet or of the end.
    ghost refuses: { Self → Option (List ℕ) → Self.Fault → Self → List ℕ → ℕ → Type 0 };

    /// Takes the next packet. A stage that refused answers the same refusal from then on, writes nothing and takes no
    /// step.
    fn offer(
        &mut self,
        packet: &Packet,
        out: &mut K,
        steps: &mut Steps<L>,
    ) -> Result<(), StageFault<Self::Fault>>
        requires live { live self.old }
        ensures value { OnOk result (HasGrown (sink_state_of K.Sink out.old) (sink_state_of K.Sink out.new) steps.old
            steps.new
            (does self.old packet.now self.new)) }
        ensures ok { OnOk result (live self.new × (kept self.new ≡ None)) }
        ensures fault { (fault : Self.Fault) → result ≡ Err (StageFault.Refused fault) →
            HasGrown (sink_state_of K.Sink out.old) (sink_state_of K.Sink out.new) steps.old steps.new
            (refuses self.old (Some packet.now) fault self.new) }
        ensures keeps { (fault : Self.Fault) → result ≡ Err (StageFault.Refused fault) →
            live self.new × (kept self.new ≡ Some fault) }
        ensures again { (fault : Self.Fault) → kept self.old ≡ Some fault →
            (result ≡ Err (StageFault.Refused fault)) × (sink_state_of K.Sink out.new ≡ sink_state_of K.Sink out.old)
            × (steps.new ≡ steps.old) }
        ensures prefix { IsErrOf result StageFault.Write → IsCutShort (sink_state_of K.Sink out.old)
            (sink_state_of K.Sink out.new)
            (IsAllowed (does self.old packet.now) (refuses self.old (Some packet.now)) steps.old steps.new) }
        ensures cause { IsCaused (K.faults out.old) (K.faults out.new) (IsErrOf result StageFault.Write) };

    /// Takes the end of the stream, after its last packet.
    fn close(&mut self, out: &mut K, steps: &mut Steps<L>) -> Result<(), StageFault<Self::Fault>>
        requires live { live self.old }
        ensures value { OnOk result (HasGrown (sink_state_of K.Sink out.old) (sink_state_of K.Sink out.new) steps.old
            steps.new
            (ends self.old self.new)) }
        ensures ok { OnOk result (kept self.new ≡ None) }
        ensures fault { (fault : Self.Fault) → result ≡ Err (StageFault.Refused fault) →
            HasGrown (sink_state_of K.Sink out.old) (sink_state_of K.Sink out.new) steps.old steps.new
            (refuses self.old None fault self.new) }
        ensures keeps { (fault : Self.Fault) → result ≡ Err (StageFault.Refused fault) →
            live self.new × (kept self.new ≡ Some fault) }
        ensures again { (fault : Self.Fault) → kept self.old ≡ Some fault →
            (result ≡ Err (StageFault.Refused fault)) × (sink_state_of K.Sink out.new ≡ sink_state_of K.Sink out.old)
            × (steps.new ≡ steps.old) }
        ensures prefix { IsErrOf result StageFault.Write → IsCutShort (sink_state_of K.Sink out.old)
            (sink_state_of K.Sink out.new)
            (IsAllowed (ends self.old) (refuses self.old None) steps.old steps.new) }
        ensures cause { IsCaused (K.faults out.old) (K.faults out.new) (IsErrOf result StageFault.Write) };
}
