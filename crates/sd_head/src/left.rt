ghost use Rattle.std.specs.Prelude.{◌≡◌};
ghost use Rattle.sd_spec.specs.Counting.{is_marked as is_marked_packet};
ghost use Rattle.sd_head.specs.Left.{clear_fault_at, with_marked, with_refused, with_sent};

use crate::judge::is_bad_pat;
use sd_base::fields;
use sd_message::ClearFault;
use sd_packet::Packet;
use sd_spec::LeftOut;

/// Nothing is left out.
pub const NONE_LEFT: LeftOut = LeftOut {
    marked: 0,
    refused: 0,
    pats: 0,
    first: None,
};

/// Whether transport_error_indicator is 1: at least one bit is wrong, and any may be [ISO/IEC 13818-1, 2.4.3.3].
pub fn is_marked(packet: &Packet) -> bool
    ensures { result ≡ is_marked_packet packet.now }
{
    fields! { packet.bytes(); transport_error_indicator: 8, 1; }
    transport_error_indicator == 1
}

/// The fault with another number of the packet.
pub fn renumber(fault: ClearFault, packet: u64) -> ClearFault
    ensures { result ≡ clear_fault_at packet fault }
{
    match fault {
        ClearFault::AlreadyScrambled(_) => ClearFault::AlreadyScrambled(packet),
        ClearFault::PidTaken(_, pid) => ClearFault::PidTaken(packet, pid),
        ClearFault::PatForm(_, form) => ClearFault::PatForm(packet, form),
        ClearFault::PmtForm(_, form) => ClearFault::PmtForm(packet, form),
        ClearFault::TooManyPids(_) => ClearFault::TooManyPids(packet),
        ClearFault::TooLong(_) => ClearFault::TooLong(packet),
    }
}

/// Counts a packet that is marked. A number stands still at 2^64 - 1.
pub fn add_marked(left_out: &mut LeftOut)
    ensures { left_out.new ≡ with_marked left_out.old }
{
    left_out.marked = left_out.marked.saturating_add(1);
}

/// Counts a packet that breaks a rule. A number stands still at 2^64 - 1.
pub fn add_refused(left_out: &mut LeftOut, fault: ClearFault)
    ensures { left_out.new ≡ with_refused left_out.old fault }
{
    left_out.refused = left_out.refused.saturating_add(1);
    left_out.first = left_out.first.or(Some(fault));
}

/// Counts a packet that is sent, if it is on PID 0, has a payload, and is no PAT by itself. A number stands still at
/// 2^64 - 1.
pub fn add_sent(left_out: &mut LeftOut, packet: &Packet)
    ensures { left_out.new ≡ with_sent left_out.old packet.now }
{
    if is_bad_pat(packet) {
        left_out.pats = left_out.pats.saturating_add(1);
    }
}
