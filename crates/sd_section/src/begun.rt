ghost use Rattle.std.specs.Prelude.{◌≡◌, ◌+◌};
ghost use Rattle.sd_section.specs.OneMore.{begun_of};

use crate::limits::{MOST_LENGTH, UP_TO_LENGTH};
use sd_base::fields;

/// What is there of a section.
#[derive(Clone, Copy)]
pub enum Begun {
    /// section_length is above the most that it may count.
    Overlong,
    /// So many bytes are the section.
    Whole(usize),
    /// There are fewer than that.
    Part,
}

/// What is there of the section with which the bytes begin.
#[tactic(auto, unfolding(crate::specs::Assembled::is_overlong, crate::specs::Assembled::is_section_whole))]
pub fn judge(bytes: &[u8]) -> Begun
    ensures { result ≡ begun_of bytes.now }
{
    if bytes.len() < UP_TO_LENGTH {
        return Begun::Part;
    }
    fields! { bytes; section_length: 12, 12; }
    let whole = UP_TO_LENGTH + section_length as usize;
    if section_length > MOST_LENGTH {
        Begun::Overlong
    } else if whole <= bytes.len() {
        Begun::Whole(whole)
    } else {
        Begun::Part
    }
}
