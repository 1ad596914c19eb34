ghost use Rattle.std.specs.Prelude.{◌≡◌, ◌^◌, ◌<◌, ◌≤◌, ◌++◌, ◌↔◌, All, length, IfOk, OnOk, IsErrOf};
ghost use Rattle.std.specs.List.{flat_map};
ghost use Rattle.std.specs.List.Sorted.{IsStrictlyIncreasing, IsPermutation, IsSorted};
ghost use Rattle.sd_tree_keys.specs.SetNames.{IsOfHeight, set_cmp};
ghost use Rattle.sd_tree_keys.specs.declared.leaf.TheConstants.{MOST_REVOKED};
ghost use Rattle.sd_lsd.specs.Layers.{split_of};
ghost use Rattle.sd_lsd.specs.Cover.{IsLayerCover, layer_cover_of};

use crate::layer::{layer_end, useful};
use crate::width::Width;
use sd_cover_tracing::{CoverFault, cover};
use sd_tree_keys::{HIGHEST, Height, Leaf, SetName, depth};
use std::alloc::{AllocError, Global};

/// The cover by useful sets of the leaves that are not revoked, ascending: the chain cover, in which each set that
/// isn't useful is cut where its upper node's layer ends [Halevy, Shamir 2002, 3].
/// It faults with `TooMany` above [`sd_tree_keys::MOST_REVOKED`] leaves, and with `NoMemory` where memory runs out.
pub fn layered_cover(
    alloc: Global,
    h: Height,
    w: Width,
    revoked: &[Leaf],
) -> Result<Vec<SetName>, CoverFault>
    requires width { w ≤ h }
    requires leaves { All (λ u. u < 2 ^ h) revoked.now }
    requires ascending { IsStrictlyIncreasing revoked.now }
    ensures value { IfOk result (λ sets.
        (sets.items ≡ layer_cover_of h w revoked.now) × IsLayerCover h w revoked.now sets.items) }
    ensures fault { IsErrOf result CoverFault.TooMany ↔ (MOST_REVOKED < length revoked.now) }
{
    prove!(h.get() <= HIGHEST);
    prove!(1 <= w.get());
    let chains = cover(alloc, h, revoked)?;
    Ok(split(alloc, h, w, &chains)?)
}

// The sets as useful ones, sorted.
fn split(alloc: Global, h: Height, w: Width, sets: &[SetName]) -> Result<Vec<SetName>, AllocError>
    requires width { w ≤ h }
    requires names { All (IsOfHeight h) sets.now }
    ensures parts { IfOk result (λ parts. IsPermutation (flat_map (split_of w) sets.now) parts.items) }
    ensures sorted { IfOk result (λ parts. IsSorted set_cmp parts.items) }
{
    let mut parts = Vec::new(alloc);
    for name in sets {
        push_parts(&mut parts, h, w, *name)?;
    }
    parts.sort_unstable();
    Ok(parts)
}

// Adds a set as useful ones.
#[tactic(auto, unfolding(crate::specs::Layers::split_of, crate::specs::Layers::layer_node))]
fn push_parts(sets: &mut Vec<SetName>, h: Height, w: Width, name: SetName) -> Result<(), AllocError>
    requires width { w ≤ h }
    requires name { IsOfHeight h name }
    ensures { OnOk result (sets.new.items ≡ sets.old.items ++ split_of w name) }
{
    match name {
        SetName::Diff { i, j } if !useful(h, w, name) => {
            let k = j >> (depth(j) - layer_end(w, depth(i)));
            sets.push(SetName::Diff { i, j: k })?;
            sets.push(SetName::Diff { i: k, j })?;
        }
        _ => sets.push(name)?,
    }
    Ok(())
}
