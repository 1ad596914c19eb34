ghost use Rattle.std.specs.Prelude.{◌≡◌, ◌<◌, ◌≤◌, Some, length, slice_get};
ghost use Rattle.sd_message.specs.Pieces.{piece_at};
ghost use Rattle.sd_message.specs.EcmVersions.{IsVersion, IsNamed, IsSince, positions_for};
ghost use Rattle.sd_message.specs.EcmForm.{ArePositioned, ArePidsAscending, AreShort, IsEcm};
ghost use Rattle.sd_message.specs.EcmFields.{padded_places};
ghost use Rattle.sd_message.specs.EcmParts.{message_of, parts_for, parts_of};
ghost use Rattle.sd_message.specs.declared.ecm_format.TheConstants.{POSITIONS, MOST_PLACES};

use crate::ecm_format::{MOST_PLACES, POSITIONS, POSITIONS_2, positions_a_part};
use crate::ecm_part::{EcmPart, NOTHING, Place};

/// What each part of a control message says of it: all but the positions, and the number of parts
/// (docs/FORMATS.md, Messages).
#[derive(Clone, Copy, PartialEq, Eq)]
pub struct EcmHead {
    /// The version, 1, 2 or 3.
    pub version: u8,
    /// The number of the message.
    pub number: u32,
    /// The period.
    pub period: u32,
    /// The number of the control word.
    pub word: u32,
    /// How many clear packets stand before the message.
    pub clear: u32,
    /// A message before this one, whose control word each packet from there up to this message has. For message 0 it is
    /// 0, and in version 1 it is the message before.
    pub since: u32,
    /// The broadcast's name, its first control word, in version 3; none in versions 1 and 2.
    pub run: Option<u32>,
    /// Whether the message closes the stream.
    pub closing: bool,
    /// The wrapped control word.
    pub wrapped: [u8; 32],
    /// The check value of the control word.
    pub check: [u8; 16],
}

/// The number of parts of a message of this version with `places` positions: enough to hold them, and at least
/// one.
#[tactic(auto, unfolding(crate::specs::Pieces::pieces_for, crate::specs::EcmVersions::positions_for))]
pub fn part_count(version: u8, places: usize) -> u8
    requires { places ≤ MOST_PLACES }
    ensures { result ≡ parts_for version places }
{
    if version == 1 {
        places.div_ceil(POSITIONS).max(1) as u8
    } else {
        places.div_ceil(POSITIONS_2).max(1) as u8
    }
}

impl EcmPart {
    /// The part of this number, below `part_count`, of the message that says this and has these positions: all of them,
    /// ascending by PID, at most [`MOST_PLACES`] (docs/FORMATS.md, Messages).
    #[tactic(auto, using(crate::proofs::EcmSharing::stands_at), unfolding(crate::specs::EcmParts::part_at))]
    pub fn of_message(head: &EcmHead, places: &[Place], part: u8) -> EcmPart
        requires places { length places.now ≤ MOST_PLACES }
        requires part { part < parts_for head.now.version (length places.now) }
        ensures value { slice_get (parts_of (message_of head.now places.now)) part ≡ Some result }
        ensures form { IsVersion head.now.version → IsNamed head.now.version head.now.run →
            IsSince head.now.version head.now.number head.now.since → ArePositioned places.now →
            ArePidsAscending places.now → AreShort places.now → IsEcm result }
    {
        let own = places_of(head.version, places, part);
        EcmPart {
            version: head.version,
            number: head.number,
            period: head.period,
            word: head.word,
            clear: head.clear,
            since: head.since,
            run: head.run,
            closing: head.closing,
            part,
            last_part: part_count(head.version, places.len()) - 1,
            wrapped: head.wrapped,
            check: head.check,
            count: own.len() as u8,
            positions: filled_up(own),
        }
    }
}

// The positions of the part of this number.
fn places_of(version: u8, places: &[Place], part: u8) -> &[Place]
    ensures value { result.now ≡ piece_at (positions_for version) places.now part }
    ensures few { length result.now ≤ POSITIONS }
{
    let most = positions_a_part(version);
    let after = &places[places.len().min(most * usize::from(part))..];
    &after[..after.len().min(most)]
}

// Filled up to 13.
fn filled_up(own: &[Place]) -> [Place; POSITIONS]
    requires { length own.now ≤ POSITIONS }
    ensures { result ≡ padded_places own.now }
{
    let mut places = [NOTHING; POSITIONS];
    places[..own.len()].copy_from_slice(own);
    places
}
