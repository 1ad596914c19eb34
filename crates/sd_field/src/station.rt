ghost use Rattle.std.specs.Prelude.{◌≡◌, ◌⊎◌, ◌<◌, ◌++◌, ◌∷◌, [], ℕ, List, None, Some, Err, IfOk, IsErr, OnOk, length};
ghost use Rattle.std.specs.Prelude.{true};
ghost use Rattle.std.specs.List.{concat};
ghost use Rattle.sd_message.specs.declared.clear_fault.ClearFault.{ClearFault as Fault};
ghost use Rattle.sd_spec.specs.Plan.{Plan};
ghost use Rattle.sd_spec.specs.Refused.{refusal_of};
ghost use Rattle.sd_spec.specs.Sent.{body};
ghost use Rattle.sd_head.specs.Kept.{plan_of};
ghost use Rattle.sd_head.specs.Schedule.{begins_with};
ghost use Rattle.sd_head.specs.Staged.{IsHeadReady};
ghost use Rattle.sd_field.specs.Stations.{IsStation};

use crate::fault::FieldFault;
use crate::seat::sink_of;
use sd_base::{NoMemory, Steps};
use sd_book::Book;
use sd_engine::{Stage, StageFault};
use sd_head::{Head, HeadFault};
use sd_packet::Packet;
use sd_ports::MemSink;
use sd_site_cards::Site;
use std::alloc::Global;
use std::sync::ledger::Ledger;

/// The head end of a field, the number of clear packets that it has sent, and all that it wrote for them.
#[derive(Drop)]
pub struct Station {
    pub(crate) head: Head,
    pub(crate) count: usize,
    pub(crate) sent: MemSink,
}

impl Station {
    /// A new head end, with room for `room` bytes.
    pub fn new(alloc: Global, site: Site, book: Book, room: usize) -> Result<Station, NoMemory>
        requires height { book.height ≡ site.height }
        ensures { IfOk result (IsStation (plan_of site book) [] room) }
    {
        Ok(Station {
            head: Head::new(alloc, site, book)?,
            count: 0,
            sent: sink_of(alloc, room)?,
        })
    }

    /// Sends the next clear packet. `Clear` if the head end refuses it, `NoMemory` if memory or the room doesn't
    /// suffice.
    pub fn send<L: Ledger>(
        &mut self,
        packet: &Packet,
        steps: &mut Steps<L>,
    ) -> Result<(), FieldFault>
        requires live { IsHeadReady self.old.head }
        requires few { self.old.count < 16384 }
        ensures sent { (plan : Plan) (packets : List (List ℕ)) (total : ℕ) →
            IsStation plan packets total self.old →
            OnOk result (IsStation plan (packets ++ packet.now ∷ []) total self.new) }
        ensures allowed { (plan : Plan) (packets : List (List ℕ)) (total : ℕ) →
            IsStation plan packets total self.old → OnOk result (refusal_of plan.site packets packet.now ≡ None) }
        ensures refused { (plan : Plan) (packets : List (List ℕ)) (total : ℕ) (fault : Fault) →
            IsStation plan packets total self.old → result ≡ Err (FieldFault.Clear fault) →
            (refusal_of plan.site packets packet.now ≡ Some fault) × (self.new.sent.held ≡ self.old.sent.held) }
        ensures memory { (plan : Plan) (packets : List (List ℕ)) (total : ℕ) →
            IsStation plan packets total self.old → result ≡ Err FieldFault.NoMemory →
            (refusal_of plan.site packets packet.now ≡ None)
            × (((begins_with plan (length packets) ≡ true) × (self.new.sent.held ≡ self.old.sent.held))
            ⊎ (total < length (concat (body plan (packets ++ packet.now ∷ []))))) }
        ensures count { IsErr result → self.new.count ≡ self.old.count }
    {
        match self.head.offer(packet, &mut self.sent, steps) {
            Ok(()) => {
                self.count += 1;
                Ok(())
            }
            Err(StageFault::Refused(HeadFault::Clear(fault))) => Err(FieldFault::Clear(fault)),
            Err(StageFault::Refused(HeadFault::NoMemory)) => Err(FieldFault::NoMemory),
            Err(StageFault::Write) => Err(FieldFault::NoMemory),
        }
    }
}
