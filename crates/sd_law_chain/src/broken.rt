//! A broadcast that broke off.

ghost use Rattle.std.specs.Prelude.{◌≡◌, ◌≤◌, ◌++◌, [], List, Some, Contains, take};
ghost use Rattle.sd_base.specs.Types.{Packets, PacketNumber};
ghost use Rattle.sd_site_cards.specs.SiteFields.{SiteFields};
ghost use Rattle.sd_message.specs.declared.clear_fault.ClearFault.{ClearFault};
ghost use Rattle.sd_message.specs.ClearFaults.{clear_packet};
ghost use Rattle.sd_spec.specs.Plan.{Plan};
ghost use Rattle.sd_spec.specs.Refused.{IsClear, refusal_from};
ghost use Rattle.sd_spec.specs.Sent.{Item, body, broadcast, sent};
ghost use Rattle.sd_law_broadcast.specs.Runs.{run_sent};

/// A broadcast that broke off counts as that of the clear packets that its head end took, whatever came after them: all
/// that was sent is of that broadcast, and its packets are the first ones of it. The packets up to one that is refused
/// are a clear stream.
pub fn broken_broadcasts_send_no_more()
    ensures first { (plan : Plan) (before rest : Packets) →
        (more : List Item) × (sent plan (before ++ rest) ≡ sent plan before ++ more) }
    ensures sent { (plan : Plan) (before : Packets) (item : Item) → Contains (sent plan before) item →
        Contains (run_sent (record { plan = plan; clear = before })) item }
    ensures packets { (plan : Plan) (before : Packets) →
        (more : Packets) × (broadcast plan before ≡ body plan before ++ more) }
    ensures clear { (site : SiteFields) (clear : Packets) (fault : ClearFault) (k : PacketNumber) →
        refusal_from site [] clear ≡ Some fault → k ≤ clear_packet fault → IsClear site (take k clear) }
{}
