ghost use Rattle.std.specs.Prelude.{◌≡◌, IfOk};
ghost use Rattle.sd_head.specs.Kept.{plan_of};
ghost use Rattle.sd_command_base.specs.Outcome.{IsEnding, status_of};
ghost use Rattle.sd_command_base.specs.Printed.{MemoryOutcome};
ghost use Rattle.sd_run_broadcasts.specs.Trial.{HasSentTrial, is_wanting, sent_or, told_sent};

use crate::head_command::send;
use sd_base::{NoMemory, Steps};
use sd_book::Book;
use sd_command_base::{LimitKind, Status};
use sd_head::Head;
use sd_packet::SIZE;
use sd_ports::{MemSink, SliceSource, Taken};
use sd_site_cards::Site;
use std::alloc::Global;
use std::sync::ledger::Ledger;

/// The room for what is sent with one clear packet, or after the last, in packets. It is at most a CAT, 43 packets of
/// entitlements to 127 sets, 22 of a control message, and the clear packet; the number is rounded up.
const MOST_WITH_ONE: usize = 72;

/// The bytes of the broadcast of a clear stream, which must be no longer than what was taken of it.
pub fn sent_for<L: Ledger>(
    alloc: Global,
    site: Site,
    book: Book,
    clear: &Taken,
    steps: &mut Steps<L>,
) -> Result<Vec<u8>, Status>
    requires { book.height ≡ site.height }
    ensures { MemoryOutcome (λ sent. sent.items) (told_sent (plan_of site book) clear.now) result }
{
    let (sent, status) = send_all(alloc, site, book, clear.bytes(), steps)?;
    judge(sent, status, clear.more())
}

/// What was sent, and the status with which the head end ended. The room for the broadcast is allocated at once, and
/// only the part of it that is sent is ever written.
fn send_all<L: Ledger>(
    alloc: Global,
    site: Site,
    book: Book,
    clear: &[u8],
    steps: &mut Steps<L>,
) -> Result<(Vec<u8>, Status), NoMemory>
    requires { book.height ≡ site.height }
    ensures { IfOk result (λ sent. HasSentTrial (plan_of site book) clear.now sent.0.items sent.1) }
{
    let mut head = Head::new(alloc, site, book)?;
    let room = (clear.len() / SIZE + 1).saturating_mul(MOST_WITH_ONE * SIZE);
    let mut sink = MemSink::new(alloc, room, usize::MAX, Vec::new(alloc))?;
    let mut source = SliceSource::new(clear);
    let status = settled(send(&mut source, &mut sink, &mut head, steps));
    if wants_memory(status) {
        return Err(NoMemory);
    }
    Ok((sink.into_bytes(), status))
}

/// The status of a result.
pub fn settled(ended: Result<(), Status>) -> Status
    ensures { result ≡ status_of ended }
{
    match ended {
        Ok(()) => Status::Done,
        Err(status) => status,
    }
}

/// Whether a run in memory ended because memory didn't suffice: for the stage itself, or as room for what it writes.
pub fn wants_memory(status: Status) -> bool
    ensures { result ≡ is_wanting status }
{
    matches!(status, Status::NoMemory | Status::DepotFault)
}

/// What was sent, if the head end sent the whole stream and no byte was left after it.
fn judge(sent: Vec<u8>, status: Status, more: bool) -> Result<Vec<u8>, Status>
    requires { IsEnding status }
    ensures { MemoryOutcome (λ sent. sent.items) (sent_or status more sent.items) result }
{
    match status {
        Status::Done if more => Err(Status::Limit(LimitKind::TrialPackets)),
        Status::Done => Ok(sent),
        _ => Err(status),
    }
}
