ghost use Rattle.std.specs.Prelude.{◌≡◌, ◌<◌, ◌≤◌, Some, length, slice_get};
ghost use Rattle.sd_message.specs.EmmSpelled.{names_in};
ghost use Rattle.sd_message.specs.EmmForm.{IsEmm, sections_for};
ghost use Rattle.sd_message.specs.EmmFields.{padded_entries};
ghost use Rattle.sd_message.specs.Period.{entries_at, emms_of};
ghost use Rattle.sd_tree_keys.specs.SetNames.{AreAscending};
ghost use Rattle.sd_message.specs.declared.emm_format.TheConstants.{MOST_ENTRIES, MOST_SETS};

use crate::emm::{Emm, Entry, NOTHING};
use crate::emm_format::{MOST_ENTRIES, MOST_SETS};

/// The number of sections of a period with `sets` sets: three sets to a section, and at least one section.
#[tactic(auto, unfolding(crate::specs::Pieces::pieces_for))]
pub fn section_count(sets: usize) -> u16
    requires { sets ≤ MOST_SETS }
    ensures { result ≡ sections_for sets }
{
    sets.div_ceil(MOST_ENTRIES).max(1) as u16
}

impl Emm {
    /// The section of this index, below `section_count`, of the period that has this number, this check value of its
    /// key and these sets: all of them, ascending, at most [`MOST_SETS`] (docs/FORMATS.md, Messages). It names the
    /// broadcast where a name is given.
    #[tactic(auto, using(crate::proofs::EmmSharing::stands_at), unfolding(crate::specs::Period::emm_at))]
    pub fn of_period(
        run: Option<u32>,
        period: u32,
        check: &[u8; 16],
        entries: &[Entry],
        index: u16,
    ) -> Emm
        requires sets { length entries.now ≤ MOST_SETS }
        requires index { index < sections_for (length entries.now) }
        ensures value { slice_get
            (emms_of (record { run = run; number = period; check = check.now; entries = entries.now })) index ≡
            Some result }
        ensures form { AreAscending (names_in entries.now) → IsEmm result }
    {
        let own = entries_of(entries, index);
        Emm {
            period,
            sets: entries.len() as u32,
            sections: section_count(entries.len()),
            index,
            check: *check,
            run,
            count: own.len() as u8,
            entries: filled_up(own),
        }
    }
}

// The entries of the section of this index.
fn entries_of(entries: &[Entry], index: u16) -> &[Entry]
    ensures value { result.now ≡ entries_at entries.now index }
    ensures few { length result.now ≤ MOST_ENTRIES }
{
    let after = &entries[entries.len().min(MOST_ENTRIES * usize::from(index))..];
    &after[..after.len().min(MOST_ENTRIES)]
}

// Filled up to three.
fn filled_up(own: &[Entry]) -> [Entry; MOST_ENTRIES]
    requires { length own.now ≤ MOST_ENTRIES }
    ensures { result ≡ padded_entries own.now }
{
    let mut entries = [NOTHING; MOST_ENTRIES];
    entries[..own.len()].copy_from_slice(own);
    entries
}
