ghost use Rattle.std.specs.Prelude.{◌≡◌, ◌≤◌};
ghost use Rattle.sd_message.specs.EmmSpelled.{listed_entries};
ghost use Rattle.sd_message.specs.declared.emm_format.TheConstants.{MOST_ENTRIES};

use crate::emm_format::MOST_ENTRIES;
use sd_tree_keys::SetName;

/// A set of receivers, and the period key wrapped under the set's key.
#[derive(Clone, Copy, PartialEq, Eq)]
pub struct Entry {
    /// The set.
    pub name: SetName,
    /// The wrapped period key.
    pub wrapped: [u8; 32],
}

/// The entry that fills a section's list beyond the number of its entries: the whole set with zeros.
pub const NOTHING: Entry = Entry {
    name: SetName::Whole,
    wrapped: [0; 32],
};

/// One section of an entitlement management message, with some of a period's sets (docs/FORMATS.md, Messages).
#[derive(Clone, Copy, PartialEq, Eq)]
pub struct Emm {
    /// The period.
    pub period: u32,
    /// How many sets the period has, in all of its sections.
    pub sets: u32,
    /// How many sections the period has.
    pub sections: u16,
    /// Which of them this is, from 0 on.
    pub index: u16,
    /// The check value of the period key.
    pub check: [u8; 16],
    /// The broadcast's name, its first control word, where the section tells it.
    pub run: Option<u32>,
    /// How many entries this section has.
    pub count: u8,
    /// The entries. Those past `count` are the whole set with zeros.
    pub entries: [Entry; MOST_ENTRIES],
}

impl Emm {
    /// The entries that the section has.
    pub fn listed(&self) -> &[Entry]
        requires { self.now.count ≤ MOST_ENTRIES }
        ensures { result.now ≡ listed_entries self.now }
    {
        &self.entries[..usize::from(self.count)]
    }
}
