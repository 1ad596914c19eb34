ghost use Rattle.std.specs.Prelude.{◌≡◌, ◌<◌, ◌≤◌, ◌↔◌, [], ◌∷◌, true, IsNone, IfSome, length, drop};
ghost use Rattle.sd_psi.specs.Tables.{are_descriptors, stream_of, streams_in, are_streams};

use crate::descriptor::Descriptors;
use crate::items::{Kind, first};
use sd_base::fields;

// Where the descriptors of a stream begin.
const DESCRIPTORS: usize = 5;

/// A stream of a PMT (ISO/IEC 13818-1, 2.4.4.8).
#[derive(Clone, Copy)]
pub struct Stream<'a> {
    bytes: &'a [u8],
    pub ghost head: { 5 ≤ length bytes.now },
    pub ghost whole: { are_descriptors (drop 5 bytes.now) ≡ true },
}

impl<'a> Stream<'a> {
    /// stream_type.
    pub fn stream_type(&self) -> u8
        ensures { result ≡ (stream_of self.now.bytes.now).stream_type }
    {
        fields! { self.bytes; stream_type: 0, 8; }
        stream_type as u8
    }

    /// elementary_PID.
    pub fn pid(&self) -> u16
        ensures value { result ≡ (stream_of self.now.bytes.now).pid }
        ensures fits { result < 8192 }
    {
        fields! { self.bytes; elementary_pid: 11, 13; }
        elementary_pid as u16
    }

    /// Its descriptors.
    pub fn descriptors(&self) -> Descriptors<'a>
        ensures { result.bytes.now ≡ (stream_of self.now.bytes.now).info }
    {
        Descriptors::of(&self.bytes[DESCRIPTORS..])
    }
}

/// The streams that fill some bytes, one after the other.
#[derive(Clone, Copy)]
pub struct Streams<'a> {
    bytes: &'a [u8],
    pub ghost whole: { are_streams bytes.now ≡ true },
}

impl<'a> Streams<'a> {
    // Those that fill these bytes.
    pub(crate) fn of(bytes: &'a [u8]) -> Streams<'a>
        requires { are_streams bytes.now ≡ true }
        ensures { result.bytes.now ≡ bytes.now }
    {
        Streams { bytes }
    }

    /// The next stream.
    #[tactic(auto, using(crate::proofs::Listing::streams_whole, crate::proofs::Listing::stream_head, crate::proofs::Listing::info_first, crate::proofs::Listing::streams_left, crate::proofs::Listing::stream_first, crate::proofs::Listing::no_stream))]
    pub fn next(&mut self) -> Option<Stream<'a>>
        ensures none { IsNone result ↔ (streams_in self.old.bytes.now ≡ []) }
        ensures value { IfSome result (λ stream.
            streams_in self.old.bytes.now ≡ stream_of stream.bytes.now ∷ streams_in self.new.bytes.now) }
        ensures unchanged { IsNone result → self.new.bytes.now ≡ self.old.bytes.now }
    {
        let (bytes, rest) = first(Kind::Stream, self.bytes)?;
        self.bytes = rest;
        Some(Stream { bytes })
    }
}
