//! What `messages` prints of a broadcast.

ghost use Rattle.std.specs.Prelude.{◌≡◌, ◌++◌};
ghost use Rattle.sd_base.specs.Types.{Packets};
ghost use Rattle.sd_spec.specs.Plan.{Plan, IsPlan};
ghost use Rattle.sd_spec.specs.Refused.{IsSendable};
ghost use Rattle.sd_spec.specs.Sent.{broadcast, closing_of, sent};
ghost use Rattle.sd_law_broadcast.specs.Packets.{AreLong};
ghost use Rattle.sd_run_streams.specs.MessageLines.{message_lines};
ghost use Rattle.sd_law_plan.specs.Monitored.{sent_lines};

/// Of the broadcast of a clear stream the lines are those of the sections of entitlements and of the parts of control
/// messages that were sent, each as it was written and with the number of its packet. There is no other line, and so
/// none of a fault.
pub fn monitored()
    ensures { (plan : Plan) (clear : Packets) → IsPlan plan → IsSendable plan.site clear → AreLong clear →
        message_lines plan.site 0 (broadcast plan clear)
        ≡ sent_lines plan.site 0 (sent plan clear ++ closing_of plan clear) }
{}
