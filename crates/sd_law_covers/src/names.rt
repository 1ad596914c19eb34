ghost use Rattle.std.specs.Prelude.{◌≡◌, ◌+◌, ◌^◌, ◌<◌, ◌++◌, IfOk, OnOk};
ghost use Rattle.sd_tree_keys.specs.Names.{names_of_receiver, pair_names_under};
ghost use Rattle.sd_cover_tracing.specs.Reach.{ReachesItsSets};

use sd_base::NoMemory;
use sd_tree_keys::{Height, Leaf, Name, path_node, sibling};
use std::alloc::{AllocError, Global};

/// What the leaf's card holds secrets of, in the card's order: the whole set, and then the pairs of each ancestor
/// [Naor, Naor, Lotspiech 2001, 3.2].
#[tactic(auto, using(sd_cover_tracing::proofs::Own::reaches_its_sets))]
pub fn names_of(alloc: Global, h: Height, u: Leaf) -> Result<Vec<Name>, NoMemory>
    requires { u < 2 ^ h }
    ensures value { IfOk result (λ names. names.items ≡ names_of_receiver h u) }
    ensures reach { IfOk result (λ names. ReachesItsSets h u names.items) }
{
    prove!(h.get() <= 20);
    Ok(given_names(alloc, h, u)?)
}

// The names, or the allocator's own error.
#[tactic(auto, using(crate::proofs::Given::ancestor_more, crate::proofs::Given::ancestors_all))]
fn given_names(alloc: Global, h: Height, u: Leaf) -> Result<Vec<Name>, AllocError>
    requires { u < 2 ^ h }
    ensures { IfOk result (λ names. names.items ≡ names_of_receiver h u) }
{
    let mut names = Vec::new(alloc);
    names.push(Name::Whole)?;
    for depth in 0..u32::from(h.get()) {
        give(&mut names, h, u, depth)?;
    }
    Ok(names)
}

// Adds the pairs of the leaf's ancestor at this depth, from the highest hanging node down.
#[tactic(auto, using(crate::proofs::Given::pair_more, crate::proofs::Given::pairs_all))]
fn give(names: &mut Vec<Name>, h: Height, u: Leaf, depth: u32) -> Result<(), AllocError>
    requires leaf { u < 2 ^ h }
    requires depth { depth < h }
    ensures { OnOk result (names.new.items ≡ names.old.items ++ pair_names_under h u depth) }
{
    let i = path_node(h, u, depth);
    for below in 0..u32::from(h.get()) - depth {
        let w = sibling(path_node(h, u, depth + below + 1));
        names.push(Name::Pair { i, w })?;
    }
    Ok(())
}
