ghost use Rattle.std.specs.Prelude.{[], None, Some, IfOk, if◌then◌else◌};
ghost use Rattle.sd_run_streams.specs.InspectorStaged.{inspector_does, inspector_ends, inspector_refuses};
ghost use Rattle.sd_run_streams.specs.InspectorStaged.{inspector_state, IsInspectorReady};
ghost use Rattle.sd_run_streams.specs.InspectorStaged.{IsStateAfter};

use crate::assemblies::Assemblies;
use sd_base::{NoMemory, Steps};
use sd_engine::{Stage, StageFault};
use sd_packet::Packet;
use sd_ports::{Sink, write_all};
use std::alloc::Global;
use std::sync::ledger::Ledger;

/// The inspector as a stage: it writes a line for each section that a packet completes on a watched PID (this project,
/// docs/FORMATS.md, Inspector).
#[derive(Drop)]
pub struct Inspector {
    alloc: Global,
    assemblies: Assemblies,
    number: u64,
    out_of_memory: bool,
}

impl Inspector {
    /// Before the first packet.
    pub fn new(alloc: Global) -> Result<Inspector, NoMemory>
        ensures value { IfOk result (λ stage. IsStateAfter [] (inspector_state stage)) }
    {
        Ok(Inspector {
            alloc,
            assemblies: Assemblies::new(alloc)?,
            number: 0,
            out_of_memory: false,
        })
    }
}

impl<K: Sink, L: Ledger> Stage<K, L> for Inspector {
    type Fault = NoMemory;

    ghost live = { λ s. IsInspectorReady (inspector_state s) };

    ghost kept = { λ s. if s.out_of_memory then Some (record {}) else None };

    ghost does = { inspector_does };

    ghost ends = { inspector_ends };

    ghost refuses = { inspector_refuses };

    fn offer(
        &mut self,
        packet: &Packet,
        out: &mut K,
        steps: &mut Steps<L>,
    ) -> Result<(), StageFault<NoMemory>> {
        if self.out_of_memory {
            return Err(StageFault::Refused(NoMemory));
        }
        let mut text = String::new(self.alloc);
        if let Err(fault) = self
            .assemblies
            .take(self.alloc, self.number, packet, &mut text)
        {
            self.out_of_memory = true;
            return Err(StageFault::Refused(fault));
        }
        self.number = self.number.saturating_add(1);
        match write_all(out, text.as_bytes()) {
            Ok(()) => Ok(()),
            Err(_) => Err(StageFault::Write),
        }
    }

    fn close(&mut self, out: &mut K, steps: &mut Steps<L>) -> Result<(), StageFault<NoMemory>> {
        if self.out_of_memory {
            return Err(StageFault::Refused(NoMemory));
        }
        Ok(())
    }
}
