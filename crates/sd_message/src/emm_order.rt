ghost use Rattle.std.specs.Prelude.{◌≡◌, ◌↔◌, IsTrue};
ghost use Rattle.sd_tree_keys.specs.SetNames.{set_cmp, AreAscending};
ghost use Rattle.std.specs.declared.cmp.Ordering.TheVariants.{Less};
ghost use Rattle.sd_message.specs.EmmSpelled.{names_in};

use crate::emm::Entry;
use sd_tree_keys::compare_names;
use std::cmp::Ordering;

/// Whether each entry's set stands after all before it.
#[tactic(auto, using(crate::proofs::EmmAscending::first_ascends, crate::proofs::EmmAscending::next_entry, crate::proofs::EmmAscending::not_after, crate::proofs::EmmAscending::all_ascend))]
pub fn are_ascending(entries: &[Entry]) -> bool
    ensures { IsTrue result ↔ AreAscending (names_in entries.now) }
{
    for k in 1..entries.len() {
        if !is_before(&entries[k - 1], &entries[k]) {
            return false;
        }
    }
    true
}

// Whether the second entry's set stands after that of the first.
fn is_before(first: &Entry, second: &Entry) -> bool
    ensures { IsTrue result ↔ (set_cmp first.now.name second.now.name ≡ Less) }
{
    matches!(compare_names(first.name, second.name), Ordering::Less)
}
