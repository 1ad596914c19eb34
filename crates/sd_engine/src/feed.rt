ghost use Rattle.std.specs.Prelude.{◌≡◌, ◌+◌, ◌-◌, ◌<◌, ◌≤◌, None, Ok, IfOk, IfErr, IsErrOf, OnErr, length};
ghost use Rattle.std.specs.Io.KnownBytes.{IsAtEnd};
ghost use Rattle.sd_base.specs.Count.{HasCause, IsCaused};
ghost use Rattle.sd_engine.specs.Feeding.{waiting, ReadsMore, HasFilled, FillStop, FeedOutcome, FeedStop};
ghost use Rattle.sd_engine.specs.Feeding.{IsWaitingPacket};
ghost use Rattle.sd_engine.specs.Stage.{sink_state_of};
ghost use Rattle.sd_ports.specs.Bytes.{LosesPrefix};

use crate::fault::BreakCause;
use sd_packet::{Packet, SIZE};
use sd_ports::{PortFault, Sink, Source};

/// The range of a buffer that holds bytes that were read and not taken yet: from `at` up to, not including, `filled`.
#[derive(Clone, Copy)]
pub struct Span {
    /// The index of the first byte that was not taken yet.
    pub at: usize,
    /// The index after the last byte that was read.
    pub filled: usize,
}

/// Why no packet came.
#[derive(Clone, Copy)]
pub enum FeedFault {
    /// A read failed.
    Read,
    /// A write failed, of bytes that the sink held back.
    Write,
    /// What is left is no packet.
    Break(BreakCause),
}

/// Takes the packet that waits, or `None` where nothing does.
pub fn take(piece: &[u8], span: Span) -> Result<Option<Packet>, BreakCause>
    requires begun { span.at ≤ span.filled }
    requires within { span.filled ≤ length piece.now }
    ensures { IsWaitingPacket (waiting piece.now span.at span.filled) result }
{
    let rest = &piece[span.at..span.filled];
    if rest.is_empty() {
        return Ok(None);
    }
    let Some(bytes) = rest.first_chunk::<SIZE>() else {
        return Err(BreakCause::Torn);
    };
    match Packet::new(*bytes) {
        Some(packet) => Ok(Some(packet)),
        None => Err(BreakCause::NoSync),
    }
}

/// Sees to it that the bytes of a packet wait, or all that is left. If a packet waits, nothing is read; else the sink
/// first hands on what waits in it.
pub fn fill<S: Source, K: Sink>(
    source: &mut S,
    sink: &mut K,
    piece: &mut [u8],
    span: Span,
) -> Result<Span, FeedFault>
    requires begun { span.at ≤ span.filled }
    requires within { span.filled ≤ length piece.old }
    requires room { SIZE ≤ length piece.old }
    ensures begun { IfOk result (λ now. now.at ≤ now.filled) }
    ensures within { IfOk result (λ now. now.filled ≤ length piece.new) }
    ensures length { length piece.new ≡ length piece.old }
    ensures value { IfOk result (λ now. HasFilled SIZE (S.left source.old) (S.left source.new)
        (waiting piece.old span.at span.filled) (waiting piece.new now.at now.filled)) }
    ensures alone { SIZE ≤ span.filled - span.at → (result ≡ Ok span) × (source.new ≡ source.old)
        × (sink.new ≡ sink.old) × (piece.new ≡ piece.old) }
    ensures fault { IfErr result (FillStop (S.left source.old) (S.left source.new)) }
    ensures cause { IsCaused (S.faults source.old) (S.faults source.new) (IsErrOf result FeedFault.Read) }
    ensures same { sink_state_of K.Sink sink.new ≡ sink_state_of K.Sink sink.old }
    ensures told { IsErrOf result FeedFault.Write → K.held sink.old ≡ None }
    ensures written { IsCaused (K.faults sink.old) (K.faults sink.new) (IsErrOf result FeedFault.Write) }
{
    if span.filled - span.at >= SIZE {
        return Ok(span);
    }
    if sink.hand_on().is_err() {
        return Err(FeedFault::Write);
    }
    let count = begin(piece, span.at, span.filled);
    match read_until(source, sink, piece, count, SIZE) {
        Ok(filled) => Ok(Span { at: 0, filled }),
        Err(_) => Err(FeedFault::Read),
    }
}

/// Reads until `least` bytes wait at the beginning of the piece, or to the end of the input, and answers how many wait.
pub(crate) fn read_until<S: Source, K: Sink>(
    source: &mut S,
    sink: &K,
    piece: &mut [u8],
    count: usize,
    least: usize,
) -> Result<usize, PortFault>
    requires handed { K.waits sink.now ≡ 0 }
    requires few { count < least }
    requires room { least ≤ length piece.old }
    ensures within { IfOk result (λ filled. filled ≤ length piece.new) }
    ensures length { length piece.new ≡ length piece.old }
    ensures value { IfOk result (λ filled. HasFilled least (S.left source.old) (S.left source.new)
        (waiting piece.old 0 count) (waiting piece.new 0 filled)) }
    ensures fault { OnErr result (LosesPrefix (S.left source.old) (S.left source.new)) }
    ensures cause { HasCause (S.faults source.old) (S.faults source.new) result }
{
    let mut filled = count;
    while filled < least {
        match read_more(source, sink, piece, filled) {
            Ok(0) => break,
            Ok(more) => filled += more,
            Err(fault) => return Err(fault),
        }
    }
    Ok(filled)
}

/// Reads once, behind what waits. It is the only read: none is reached while bytes wait in the sink, or while all waits
/// that is needed.
fn read_more<S: Source, K: Sink>(
    source: &mut S,
    sink: &K,
    piece: &mut [u8],
    filled: usize,
) -> Result<usize, PortFault>
    requires handed { K.waits sink.now ≡ 0 }
    requires room { filled < length piece.old }
    ensures within { IfOk result (λ more. filled + more ≤ length piece.new) }
    ensures length { length piece.new ≡ length piece.old }
    ensures value { IfOk result (λ more. ReadsMore (S.left source.old) (S.left source.new)
        (waiting piece.old 0 filled) (waiting piece.new 0 (filled + more))) }
    ensures end { IfOk result (λ more. more ≡ 0 → IsAtEnd (S.left source.new)) }
    ensures fault { OnErr result (LosesPrefix (S.left source.old) (S.left source.new)) }
    ensures cause { HasCause (S.faults source.old) (S.faults source.new) result }
{
    source.read(&mut piece[filled..])
}

/// Moves the bytes that wait from `at` up to `filled`, at most a packet's, to the beginning of the piece, and answers
/// how many they are.
pub(crate) fn begin(piece: &mut [u8], at: usize, filled: usize) -> usize
    requires begun { at ≤ filled }
    requires within { filled ≤ length piece.old }
    requires few { filled - at ≤ SIZE }
    ensures count { result ≡ filled - at }
    ensures same { waiting piece.new 0 result ≡ waiting piece.old at filled }
    ensures length { length piece.new ≡ length piece.old }
{
    let count = filled - at;
    let mut bytes = [0; SIZE];
    bytes[..count].copy_from_slice(&piece[at..filled]);
    piece[..count].copy_from_slice(&bytes[..count]);
    count
}

/// The next packet with what waits after it, or `None` at the end of the input. What waits in the sink is handed on
/// before anything is read.
#[inline(always)]
pub fn next<S: Source, K: Sink>(
    source: &mut S,
    sink: &mut K,
    piece: &mut [u8],
    span: Span,
) -> Result<(Option<Packet>, Span), FeedFault>
    requires begun { span.at ≤ span.filled }
    requires within { span.filled ≤ length piece.old }
    requires room { SIZE ≤ length piece.old }
    ensures begun { IfOk result (λ given. given.1.at ≤ given.1.filled) }
    ensures within { IfOk result (λ given. given.1.filled ≤ length piece.new) }
    ensures length { length piece.new ≡ length piece.old }
    ensures value { IfOk result (λ given. FeedOutcome (S.left source.old) (S.left source.new)
        (waiting piece.old span.at span.filled) (waiting piece.new given.1.at given.1.filled) given.0) }
    ensures alone { SIZE ≤ span.filled - span.at → (source.new ≡ source.old) × (sink.new ≡ sink.old) }
    ensures fault { IfErr result
        (FeedStop (S.left source.old) (S.left source.new) (waiting piece.old span.at span.filled)) }
    ensures cause { IsCaused (S.faults source.old) (S.faults source.new) (IsErrOf result FeedFault.Read) }
    ensures same { sink_state_of K.Sink sink.new ≡ sink_state_of K.Sink sink.old }
    ensures told { IsErrOf result FeedFault.Write → K.held sink.old ≡ None }
    ensures written { IsCaused (K.faults sink.old) (K.faults sink.new) (IsErrOf result FeedFault.Write) }
{
    let span = fill(source, sink, piece, span)?;
    match take(piece, span) {
        Ok(Some(packet)) => {
            let rest = Span {
                at: span.at + SIZE,
                filled: span.filled,
            };
            Ok((Some(packet), rest))
        }
        Ok(None) => Ok((None, span)),
        Err(cause) => Err(FeedFault::Break(cause)),
    }
}
