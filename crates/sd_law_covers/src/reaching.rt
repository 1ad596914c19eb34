ghost use Rattle.std.specs.Prelude.{◌↔◌, IsTrue};
ghost use Rattle.sd_cover_tracing.specs.Reach.{Key, IsReached, DerivesSecret};

use sd_tree_keys::{Name, SetName, is_above};

/// Whether the set's key follows from the held names by the steps of the generator [Naor, Naor, Lotspiech 2001, 3.2].
pub fn reaches(held: &[Name], name: SetName) -> bool
    ensures { IsTrue result ↔ IsReached held.now (Key name) }
{
    for given in held {
        if leads_to(*given, name) {
            return true;
        }
    }
    false
}

// Whether the set's key follows from this one name.
fn leads_to(given: Name, name: SetName) -> bool
    ensures { IsTrue result ↔ DerivesSecret given (Key name) }
{
    match (given, name) {
        (Name::Whole, SetName::Whole) => true,
        (Name::Pair { i, w }, SetName::Diff { i: upper, j }) => {
            i == upper && 1 <= w && w <= j && is_above(w, j)
        }
        _ => false,
    }
}
