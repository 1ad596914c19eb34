ghost use Rattle.std.specs.Prelude.{◌≡◌, ◌+◌, ◌^◌, ◌<◌, ◌≤◌, ◌++◌, OnOk, map, take};
ghost use Rattle.sd_tree_keys.specs.Names.{pair_names_under};
ghost use Rattle.sd_site_cards.specs.Secrets.{secret_of};

use sd_base::Steps;
use sd_tree_keys::{Height, Leaf, descend, path_node, root_label, sibling};
use std::alloc::AllocError;
use std::sync::ledger::Ledger;

/// Appends the labels that a leaf's ancestor at this depth has for the highest `levels` nodes that hang below it, from
/// the highest down. If memory runs out, some of them may have been appended.
pub fn push_labels<L: Ledger>(
    secrets: &mut Vec<[u8; 32]>,
    master: &[u8; 32],
    h: Height,
    u: Leaf,
    depth: u32,
    levels: u32,
    steps: &mut Steps<L>,
) -> Result<(), AllocError>
    requires leaf { u < 2 ^ h }
    requires levels { depth + levels ≤ h }
    ensures value { OnOk result (secrets.new.items
        ≡ secrets.old.items ++ map (secret_of master.now) (take levels (pair_names_under h u depth))) }
{
    let mut parent = path_node(h, u, depth);
    let mut label = root_label(master, parent);
    for below in 0..levels {
        let node = path_node(h, u, depth + below + 1);
        secrets.push(descend(&label, parent, sibling(node), steps).0)?;
        // Nothing more hangs below the last node.
        if below + 1 < levels {
            label = descend(&label, parent, node, steps);
            parent = node;
        }
    }
    Ok(())
}
