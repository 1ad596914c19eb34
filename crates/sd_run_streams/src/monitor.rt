ghost use Rattle.std.specs.Prelude.{None, Some, if◌then◌else◌};
ghost use Rattle.sd_site_cards.specs.SiteFields.{site_fields_of};
ghost use Rattle.sd_run_streams.specs.MonitorStaged.{IsBegun, monitor_does, monitor_ends, monitor_refuses};

use crate::message_line::line_of;
use sd_base::{NoMemory, Steps};
use sd_engine::{Stage, StageFault};
use sd_packet::Packet;
use sd_ports::{Sink, write_all};
use sd_site_cards::Site;
use std::alloc::Global;
use std::sync::ledger::Ledger;

/// The monitor as a stage: it writes a line for each packet on one of a site's two PIDs that has a message, good or
/// faulty (this project, docs/FORMATS.md, Messages printed). It keeps no message.
#[derive(Drop)]
pub struct Monitor {
    alloc: Global,
    site: Site,
    number: u64,
    out_of_memory: bool,
}

impl Monitor {
    /// Before the first packet.
    pub fn new(alloc: Global, site: &Site) -> Monitor
        ensures value { IsBegun (site_fields_of site.now) result }
    {
        Monitor {
            alloc,
            site: *site,
            number: 0,
            out_of_memory: false,
        }
    }
}

impl<K: Sink, L: Ledger> Stage<K, L> for Monitor {
    type Fault = NoMemory;

    ghost live = { λ s. Unit {0} };

    ghost kept = { λ s. if s.out_of_memory then Some (record {}) else None };

    ghost does = { monitor_does };

    ghost ends = { monitor_ends };

    ghost refuses = { monitor_refuses };

    fn offer(
        &mut self,
        packet: &Packet,
        out: &mut K,
        steps: &mut Steps<L>,
    ) -> Result<(), StageFault<NoMemory>> {
        if self.out_of_memory {
            return Err(StageFault::Refused(NoMemory));
        }
        let Ok(line) = line_of(self.alloc, &self.site, self.number, packet) else {
            self.out_of_memory = true;
            return Err(StageFault::Refused(NoMemory));
        };
        self.number = self.number.saturating_add(1);
        match write_all(out, line.as_bytes()) {
            Ok(()) => Ok(()),
            Err(_) => Err(StageFault::Write),
        }
    }

    fn close(&mut self, out: &mut K, steps: &mut Steps<L>) -> Result<(), StageFault<NoMemory>> {
        if self.out_of_memory {
            return Err(StageFault::Refused(NoMemory));
        }
        Ok(())
    }
}
