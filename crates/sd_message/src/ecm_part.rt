ghost use Rattle.std.specs.Prelude.{◌≡◌, ◌≤◌, ◌↔◌, IsTrue};
ghost use Rattle.sd_message.specs.EcmSpelled.{listed_places};
ghost use Rattle.sd_message.specs.EcmParts.{ecm_head_of, SaySame};
ghost use Rattle.sd_message.specs.declared.ecm_format.TheConstants.{POSITIONS};

use crate::ecm_format::POSITIONS;
use crate::ecm_message::EcmHead;

/// A PID and its position, its extended continuity counter (docs/FORMATS.md, Positions).
#[derive(Clone, Copy, PartialEq, Eq)]
pub struct Place {
    /// The PID.
    pub pid: u16,
    /// Its position, below 2^48.
    pub position: u64,
}

/// The entry that fills a part's list of positions beyond their number: PID 0 at position 0.
pub const NOTHING: Place = Place {
    pid: 0,
    position: 0,
};

/// One section of a control message (docs/FORMATS.md, Messages).
#[derive(Clone, Copy, PartialEq, Eq)]
pub struct EcmPart {
    /// The version, 1, 2 or 3.
    pub version: u8,
    /// The number of the message.
    pub number: u32,
    /// The period.
    pub period: u32,
    /// The number of the control word.
    pub word: u32,
    /// How many clear packets stand before the message.
    pub clear: u32,
    /// A message before this one, whose control word each packet from there up to this message has. For message 0 it is
    /// 0. Version 1 doesn't write it: there it is the message before.
    pub since: u32,
    /// The broadcast's name, its first control word, in version 3; none in versions 1 and 2.
    pub run: Option<u32>,
    /// Whether the message closes the stream.
    pub closing: bool,
    /// Which part this is, from 0 on.
    pub part: u8,
    /// Which part is the last.
    pub last_part: u8,
    /// The wrapped control word.
    pub wrapped: [u8; 32],
    /// The check value of the control word.
    pub check: [u8; 16],
    /// How many positions this part has.
    pub count: u8,
    /// The positions. Those past `count` are zeros.
    pub positions: [Place; POSITIONS],
}

impl EcmPart {
    /// The positions that the part has.
    pub fn listed(&self) -> &[Place]
        requires { self.now.count ≤ POSITIONS }
        ensures { result.now ≡ listed_places self.now }
    {
        &self.positions[..usize::from(self.count)]
    }

    /// What the part says of its message, beside the number of parts.
    pub fn head(&self) -> EcmHead
        ensures { result ≡ ecm_head_of self.now }
    {
        EcmHead {
            version: self.version,
            number: self.number,
            period: self.period,
            word: self.word,
            clear: self.clear,
            since: self.since,
            run: self.run,
            closing: self.closing,
            wrapped: self.wrapped,
            check: self.check,
        }
    }

    /// Whether two parts say the same of their message.
    pub fn same_header(&self, other: &EcmPart) -> bool
        ensures { IsTrue result ↔ SaySame self.now other.now }
    {
        self.head() == other.head() && self.last_part == other.last_part
    }
}
