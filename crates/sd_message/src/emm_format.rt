//! The numbers of a section of entitlements (docs/FORMATS.md, Messages). Places are those of the body.

ghost use Rattle.std.specs.Prelude.{◌≡◌, ◌≤◌, ◌+◌};
ghost use Rattle.sd_message.specs.EmmFields.{count_at as count_place, emm_head_length as length_of_head};

/// The table_id of a section that doesn't name its broadcast.
pub const TABLE_ID: u8 = 0x82;

/// The table_id of a section that names its broadcast.
pub const NAMED_TABLE_ID: u8 = 0x8A;

/// Where the check value of the period key stands.
pub const CHECK_AT: usize = 10;

/// Where the broadcast's name stands, if it is there, and the count of entries, if not.
pub const RUN_AT: usize = 26;

/// The bytes of the broadcast's name.
pub const RUN_BYTES: usize = 4;

/// The most entries of a section.
pub const MOST_ENTRIES: usize = 3;

/// The bytes of an entry.
pub const ENTRY_BYTES: usize = 40;

/// Where the wrapped key stands in an entry.
pub const WRAPPED_AT: usize = 8;

/// The most sets of a period, those of the cover of 65,536 revoked leaves: two for each of them, but one.
pub const MOST_SETS: usize = 131_071;

/// Where the count of entries stands in a section that names its broadcast, or doesn't.
#[tactic(auto, unfolding(crate::specs::EmmFields::count_at))]
pub fn count_at(named: bool) -> usize
    ensures value { result ≡ count_place named }
    ensures least { 26 ≤ result }
    ensures few { result ≤ 30 }
{
    if named { RUN_AT + RUN_BYTES } else { RUN_AT }
}

/// Where the entries begin in a section that names its broadcast, or doesn't.
pub fn head_length(named: bool) -> usize
    ensures value { result ≡ length_of_head named }
    ensures few { result ≤ 31 }
{
    count_at(named) + 1
}
