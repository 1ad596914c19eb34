//! The full binary tree of receivers: heights, leaves, node numbers and the sets S(i,j). The labels and keys of the
//! Subset Difference method, by SHA-256 from a master, with a count of generator steps.
#![tactic(auto)]

mod digest;
mod height;
mod key;
mod label;
mod leaf;
mod name;
mod node;
mod path;
mod set;

pub use height::{HIGHEST, Height};
pub use key::{check_value, control_word, period_key, whole_key};
pub use label::{Label, Side, descend, middle, root_label, step};
pub use leaf::{Leaf, MOST_REVOKED};
pub use name::Name;
pub use node::{child_towards, depth, is_above, lowest_common};
pub use path::{leaf_node, path_node, sibling};
pub use set::{SetName, compare_names, contains};
