ghost use Rattle.std.specs.Prelude.{◌≡◌, ◌^◌, ◌<◌, ◌≤◌, All, length, IfOk};
ghost use Rattle.std.specs.List.Sorted.{IsStrictlyIncreasing};
ghost use Rattle.sd_tree_keys.specs.declared.leaf.TheConstants.{MOST_REVOKED};
ghost use Rattle.sd_tree_keys.specs.SetNames.{IsOfHeight};
ghost use Rattle.sd_cover_tracing.specs.Cover.{cover_of};

use sd_base::NoMemory;
use sd_cover_tracing::{CoverFault, cover};
use sd_tree_keys::{Height, Leaf, SetName};
use std::alloc::Global;

/// The cover of the leaves that are not revoked [Naor, Naor, Lotspiech 2001, 3.2], for at most
/// [`sd_tree_keys::MOST_REVOKED`] revoked ones.
pub fn cover_sets(alloc: Global, h: Height, revoked: &[Leaf]) -> Result<Vec<SetName>, NoMemory>
    requires leaves { All (λ u. u < 2 ^ h) revoked.now }
    requires ascending { IsStrictlyIncreasing revoked.now }
    requires few { length revoked.now ≤ MOST_REVOKED }
    ensures value { IfOk result (λ sets. sets.items ≡ cover_of h revoked.now) }
    ensures names { IfOk result (λ sets. All (IsOfHeight h) sets.items) }
{
    match cover(alloc, h, revoked) {
        Ok(sets) => Ok(sets),
        Err(CoverFault::NoMemory) => Err(NoMemory),
        Err(CoverFault::TooMany) => unreachable!(),
    }
}
