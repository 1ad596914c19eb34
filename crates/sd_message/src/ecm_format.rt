//! The numbers of a part of a control message (docs/FORMATS.md, Messages). There are three versions, 1, 2 and 3; places
//! are those of the body.

ghost use Rattle.std.specs.Prelude.{◌≡◌, ◌≤◌};
ghost use Rattle.sd_message.specs.EcmVersions.{positions_for, flags_at as flags_place, even_table_id as even_table};
ghost use Rattle.sd_message.specs.declared.ecm_format.TheConstants.{POSITIONS};

/// The table_id of a part of version 1 whose control word has an even number. That of an odd one follows it.
pub const TABLE_ID_1: u8 = 0x80;

/// The table_id of a part of version 2 whose control word has an even number. That of an odd one follows it.
pub const TABLE_ID_2: u8 = 0x84;

/// The table_id of a part of version 3 whose control word has an even number. That of an odd one follows it.
pub const TABLE_ID_3: u8 = 0x88;

/// The most positions of a part of version 1, and of any part.
pub const POSITIONS: usize = 13;

/// The most positions of a part of versions 2 and 3.
pub const POSITIONS_2: usize = 12;

/// Where the flags stand in version 1.
pub const FLAGS_AT_1: usize = 16;

/// Where the flags stand in version 2, in which `since` stands before them.
pub const FLAGS_AT_2: usize = 20;

/// Where the flags stand in version 3, in which the broadcast's name follows `since`.
pub const FLAGS_AT_3: usize = 24;

/// How many bytes after the flags the wrapped control word stands.
pub const WRAPPED_AT: usize = 1;

/// How many bytes after the flags the check value of the control word stands.
pub const CHECK_AT: usize = 33;

/// How many bytes after the flags the count of positions stands.
pub const COUNT_AT: usize = 49;

/// How many bytes after the flags the positions begin.
pub const PLACES_AT: usize = 50;

/// The bytes of a position.
pub const PLACE_BYTES: usize = 8;

/// The most positions of a message.
pub const MOST_PLACES: usize = 256;

/// How many positions a part of this version has at most.
#[tactic(auto, unfolding(crate::specs::EcmVersions::positions_for))]
pub fn positions_a_part(version: u8) -> usize
    ensures value { result ≡ positions_for version }
    ensures fits { result ≤ POSITIONS }
{
    if version == 1 { POSITIONS } else { POSITIONS_2 }
}

/// Where the flags of this version stand.
#[tactic(auto, unfolding(crate::specs::EcmVersions::flags_at))]
pub fn flags_at(version: u8) -> usize
    ensures value { result ≡ flags_place version }
    ensures fits { result ≤ 24 }
{
    match version {
        3 => FLAGS_AT_3,
        2 => FLAGS_AT_2,
        _ => FLAGS_AT_1,
    }
}

/// The table_id of a part of this version whose control word has an even number.
#[tactic(auto, unfolding(crate::specs::EcmVersions::even_table_id))]
pub fn even_table_id(version: u8) -> u8
    ensures value { result ≡ even_table version }
    ensures fits { result ≤ 0x88 }
{
    match version {
        3 => TABLE_ID_3,
        2 => TABLE_ID_2,
        _ => TABLE_ID_1,
    }
}
