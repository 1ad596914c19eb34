ghost use Rattle.std.specs.Prelude.{◌≡◌, ◌+◌, ◌-◌, ◌<◌, ◌≤◌, None, length};
ghost use Rattle.std.specs.Prelude.{IfOk, IfErr, IsErrOf};
ghost use Rattle.sd_base.specs.Count.{IsCaused};
ghost use Rattle.sd_engine.specs.Cut.{begins_packet};
ghost use Rattle.sd_engine.specs.Feeding.{waiting};
ghost use Rattle.sd_engine.specs.Seeking.{SeekOutcome, SeekStop, HasFilledAhead, FillAheadStop, IsFound};
ghost use Rattle.sd_engine.specs.Seeking.{TakesFirst, IsNextSync};
ghost use Rattle.sd_engine.specs.Stage.{sink_state_of};

use crate::feed::{begin, read_until};
use memchr::memchr;
use sd_packet::{Packet, SIZE};
use sd_ports::{Sink, Source};

pub(crate) const SYNC_BYTE: u8 = 0x47;

/// What was read of a stream and not taken yet: the bytes of a buffer from `at` up to, not including, `filled`; and
/// whether the end of the stream was read behind them.
#[derive(Clone, Copy)]
pub struct Ahead {
    /// The index of the first byte that was not taken yet.
    pub at: usize,
    /// The index after the last byte that was read.
    pub filled: usize,
    /// Whether nothing more is to be read.
    pub ended: bool,
}

/// Why a search has no result.
#[derive(Clone, Copy)]
pub enum SeekFault {
    /// A read failed.
    Read,
    /// A write failed, of bytes that the sink held back.
    Write,
    /// 2^64 - 1 bytes of the stream are in no packet.
    TooLong,
}

/// Finds the next packet by its sync byte: 188 bytes that begin with it, with another sync byte or the end of the input
/// behind them. Other bytes are passed one by one, and their number is added to `skipped`. `None` is the end of the
/// input, behind which nothing is read again. What waits in the sink is handed on before anything is read
/// [this project, docs/FORMATS.md, Streams].
#[inline(always)]
pub fn seek<S: Source, K: Sink>(
    source: &mut S,
    sink: &mut K,
    piece: &mut [u8],
    ahead: Ahead,
    skipped: &mut u64,
) -> Result<(Option<Packet>, Ahead), SeekFault>
    requires begun { ahead.at ≤ ahead.filled }
    requires within { ahead.filled ≤ length piece.old }
    requires room { 189 ≤ length piece.old }
    ensures begun { IfOk result (λ given. given.1.at ≤ given.1.filled) }
    ensures within { IfOk result (λ given. given.1.filled ≤ length piece.new) }
    ensures length { length piece.new ≡ length piece.old }
    ensures value { IfOk result (λ given. SeekOutcome (S.left source.old) (S.left source.new)
        (waiting piece.old ahead.at ahead.filled) ahead.ended
        (waiting piece.new given.1.at given.1.filled) given.1.ended skipped.old skipped.new given.0) }
    ensures fault { IfErr result (SeekStop (S.left source.old) (S.left source.new)
        (waiting piece.old ahead.at ahead.filled) ahead.ended skipped.old) }
    ensures cause { IsCaused (S.faults source.old) (S.faults source.new) (IsErrOf result SeekFault.Read) }
    ensures same { sink_state_of K.Sink sink.new ≡ sink_state_of K.Sink sink.old }
    ensures told { IsErrOf result SeekFault.Write → K.held sink.old ≡ None }
    ensures written { IsCaused (K.faults sink.old) (K.faults sink.new) (IsErrOf result SeekFault.Write) }
{
    let ahead = find(source, sink, piece, ahead, skipped)?;
    match first_packet(&piece[ahead.at..ahead.filled]) {
        Some(packet) => Ok((Some(packet), behind(ahead, SIZE))),
        None => Ok((None, ahead)),
    }
}

/// Finds the next packet, which is first in what waits then, or the end of the input, where nothing waits.
#[inline(always)]
fn find<S: Source, K: Sink>(
    source: &mut S,
    sink: &mut K,
    piece: &mut [u8],
    ahead: Ahead,
    skipped: &mut u64,
) -> Result<Ahead, SeekFault>
    requires begun { ahead.at ≤ ahead.filled }
    requires within { ahead.filled ≤ length piece.old }
    requires room { 189 ≤ length piece.old }
    ensures begun { IfOk result (λ now. now.at ≤ now.filled) }
    ensures within { IfOk result (λ now. now.filled ≤ length piece.new) }
    ensures length { length piece.new ≡ length piece.old }
    ensures value { IfOk result (λ now. IsFound (S.left source.old) (S.left source.new)
        (waiting piece.old ahead.at ahead.filled) (waiting piece.new now.at now.filled) ahead.ended now.ended
        skipped.old skipped.new) }
    ensures fault { IfErr result (SeekStop (S.left source.old) (S.left source.new)
        (waiting piece.old ahead.at ahead.filled) ahead.ended skipped.old) }
    ensures cause { IsCaused (S.faults source.old) (S.faults source.new) (IsErrOf result SeekFault.Read) }
    ensures same { sink_state_of K.Sink sink.new ≡ sink_state_of K.Sink sink.old }
    ensures told { IsErrOf result SeekFault.Write → K.held sink.old ≡ None }
    ensures written { IsCaused (K.faults sink.old) (K.faults sink.new) (IsErrOf result SeekFault.Write) }
{
    if ahead.filled - ahead.at > SIZE && begins(&piece[ahead.at..ahead.filled]) {
        return Ok(ahead);
    }
    search(source, sink, piece, ahead, skipped)
}

/// Finds the next packet, or the end of the input, by reading on and passing bytes.
#[inline(never)]
fn search<S: Source, K: Sink>(
    source: &mut S,
    sink: &mut K,
    piece: &mut [u8],
    ahead: Ahead,
    skipped: &mut u64,
) -> Result<Ahead, SeekFault>
    requires begun { ahead.at ≤ ahead.filled }
    requires within { ahead.filled ≤ length piece.old }
    requires room { 189 ≤ length piece.old }
    ensures begun { IfOk result (λ now. now.at ≤ now.filled) }
    ensures within { IfOk result (λ now. now.filled ≤ length piece.new) }
    ensures length { length piece.new ≡ length piece.old }
    ensures value { IfOk result (λ now. IsFound (S.left source.old) (S.left source.new)
        (waiting piece.old ahead.at ahead.filled) (waiting piece.new now.at now.filled) ahead.ended now.ended
        skipped.old skipped.new) }
    ensures fault { IfErr result (SeekStop (S.left source.old) (S.left source.new)
        (waiting piece.old ahead.at ahead.filled) ahead.ended skipped.old) }
    ensures cause { IsCaused (S.faults source.old) (S.faults source.new) (IsErrOf result SeekFault.Read) }
    ensures same { sink_state_of K.Sink sink.new ≡ sink_state_of K.Sink sink.old }
    ensures told { IsErrOf result SeekFault.Write → K.held sink.old ≡ None }
    ensures written { IsCaused (K.faults sink.old) (K.faults sink.new) (IsErrOf result SeekFault.Write) }
{
    let mut ahead = ahead;
    loop {
        ahead = fill_ahead(source, sink, piece, ahead)?;
        let rest = &piece[ahead.at..ahead.filled];
        if rest.is_empty() || begins(rest) {
            return Ok(ahead);
        }
        let passed = next_sync(rest);
        if passed as u64 >= u64::MAX - *skipped {
            return Err(SeekFault::TooLong);
        }
        *skipped += passed as u64;
        ahead = behind(ahead, passed);
    }
}

/// Sees to it that the bytes of a packet and one more wait, or all that is left, and the end was read.
fn fill_ahead<S: Source, K: Sink>(
    source: &mut S,
    sink: &mut K,
    piece: &mut [u8],
    ahead: Ahead,
) -> Result<Ahead, SeekFault>
    requires begun { ahead.at ≤ ahead.filled }
    requires within { ahead.filled ≤ length piece.old }
    requires room { 189 ≤ length piece.old }
    ensures begun { IfOk result (λ now. now.at ≤ now.filled) }
    ensures within { IfOk result (λ now. now.filled ≤ length piece.new) }
    ensures length { length piece.new ≡ length piece.old }
    ensures value { IfOk result (λ now. HasFilledAhead (S.left source.old) (S.left source.new)
        (waiting piece.old ahead.at ahead.filled) ahead.ended (waiting piece.new now.at now.filled) now.ended) }
    ensures fault { IfErr result (FillAheadStop (S.left source.old) (S.left source.new) ahead.ended) }
    ensures cause { IsCaused (S.faults source.old) (S.faults source.new) (IsErrOf result SeekFault.Read) }
    ensures same { sink_state_of K.Sink sink.new ≡ sink_state_of K.Sink sink.old }
    ensures told { IsErrOf result SeekFault.Write → K.held sink.old ≡ None }
    ensures written { IsCaused (K.faults sink.old) (K.faults sink.new) (IsErrOf result SeekFault.Write) }
{
    if ahead.ended || ahead.filled - ahead.at > SIZE {
        return Ok(ahead);
    }
    if sink.hand_on().is_err() {
        return Err(SeekFault::Write);
    }
    let count = begin(piece, ahead.at, ahead.filled);
    match read_until(source, sink, piece, count, SIZE + 1) {
        Ok(filled) => Ok(Ahead {
            at: 0,
            filled,
            ended: filled <= SIZE,
        }),
        Err(_) => Err(SeekFault::Read),
    }
}

/// What waits once its first bytes were taken or passed.
#[inline(always)]
fn behind(ahead: Ahead, count: usize) -> Ahead
    requires { count ≤ ahead.filled - ahead.at }
    ensures at { result.at ≡ ahead.at + count }
    ensures filled { result.filled ≡ ahead.filled }
    ensures ended { result.ended ≡ ahead.ended }
{
    Ahead {
        at: ahead.at + count,
        ..ahead
    }
}

/// Whether bytes begin with a packet, if these are all that come, or more than its bytes.
#[inline(always)]
#[tactic(auto, using(crate::proofs::Begins::too_few, crate::proofs::Begins::no_sync_first, crate::proofs::Begins::not_followed, crate::proofs::Begins::followed))]
fn begins(bytes: &[u8]) -> bool
    ensures { result ≡ begins_packet bytes.now }
{
    bytes.len() >= SIZE
        && bytes[0] == SYNC_BYTE
        && (bytes.len() == SIZE || bytes[SIZE] == SYNC_BYTE)
}

/// The packet with which bytes begin, or `None` if there are none.
#[inline(always)]
#[tactic(auto, using(crate::proofs::Begins::first_taken, crate::proofs::Begins::none_taken))]
fn first_packet(bytes: &[u8]) -> Option<Packet>
    ensures { TakesFirst bytes.now result }
{
    let first = bytes.first_chunk::<SIZE>()?;
    Packet::new(*first)
}

/// How many bytes are passed: the first one, and those behind it before the next sync byte.
fn next_sync(bytes: &[u8]) -> usize
    requires { 0 < length bytes.now }
    ensures { IsNextSync bytes.now result }
{
    match memchr(SYNC_BYTE, &bytes[1..]) {
        Some(count) => count + 1,
        None => bytes.len(),
    }
}
