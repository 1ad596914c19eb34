use sd_law_covers::names_of;
use sd_tree_keys::{Height, Leaf, Name};
use std::alloc::{AllocError, Global};

/// The names of a leaf at this height.
pub(crate) fn names(alloc: Global, d: u8, u: u32) -> Option<Vec<Name>> {
    let h = Height::new(d)?;
    names_of(alloc, h, Leaf::new(h, u)?).ok()
}

/// All names of a tree of height 3 at most that follow from these, by the rules and nothing else.
pub(crate) fn closure(alloc: Global, held: &[Name]) -> Result<Vec<Name>, AllocError> {
    let mut names = held.to_vec(alloc)?;
    for _turn in 0..3 {
        for name in names.clone()?.iter() {
            if let Name::Pair { i, w } = *name {
                if 1 <= w && w < 8 {
                    names.push(Name::Pair { i, w: 2 * w })?;
                    names.push(Name::Pair { i, w: 2 * w + 1 })?;
                }
            }
        }
    }
    Ok(names)
}
