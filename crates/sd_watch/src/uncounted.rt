ghost use Rattle.std.specs.Prelude.{◌≡◌};
ghost use Rattle.sd_spec.specs.Counting.{is_marked as is_marked_packet};
ghost use Rattle.sd_watch.specs.Tallied.{tally_add, tally_refuse};

use sd_base::fields;
use sd_message::StreamFault;
use sd_packet::Packet;
use sd_spec::Tally;

/// Why a packet doesn't count, before a receiver takes it [this project, docs/FORMATS.md, Receiver].
#[derive(Clone, Copy, PartialEq, Eq)]
pub enum Uncounted {
    /// It has an error that could not be corrected.
    Marked,
    /// It comes again.
    Doubled,
    /// It can't be under the control word in force.
    Odd,
}

/// Whether transport_error_indicator is 1: at least one bit is wrong, and any may be [ISO/IEC 13818-1, 2.4.3.3].
pub fn is_marked(packet: &Packet) -> bool
    ensures { result ≡ is_marked_packet packet.now }
{
    fields! { packet.bytes(); transport_error_indicator: 8, 1; }
    transport_error_indicator == 1
}

/// Counts a packet that doesn't count for this reason. A number stands still at 2^64 - 1.
pub fn add(tally: &mut Tally, reason: Uncounted)
    ensures { tally.new ≡ tally_add tally.old reason }
{
    match reason {
        Uncounted::Marked => tally.marked = tally.marked.saturating_add(1),
        Uncounted::Doubled => tally.doubled = tally.doubled.saturating_add(1),
        Uncounted::Odd => tally.odd = tally.odd.saturating_add(1),
    }
}

/// Counts a packet that is refused for this cause. A number stands still at 2^64 - 1.
pub fn refuse(tally: &mut Tally, fault: StreamFault)
    ensures { tally.new ≡ tally_refuse tally.old fault }
{
    tally.refused = tally.refused.saturating_add(1);
    tally.first = tally.first.or(Some(fault));
}
