ghost use Rattle.std.specs.Prelude.{◌≡◌, ◌^◌, ◌<◌, ◌↔◌, IsTrue, All, Any};
ghost use Rattle.std.specs.List.{list_any, flat_map};
ghost use Rattle.sd_tree_keys.specs.Leaves.{is_member};
ghost use Rattle.sd_tree_keys.specs.SetNames.{IsOfHeight};
ghost use Rattle.sd_tree_keys.specs.Names.{names_of_receiver};
ghost use Rattle.sd_cover_tracing.specs.Reach.{Key, IsReached};

use sd_tree_keys::{Height, Leaf, SetName, contains};

/// Whether the names of some leaf of the coalition reach the set's key. They do exactly where that leaf is in the set,
/// and the leaves' names together reach no more.
pub fn opens(h: Height, coalition: &[Leaf], name: SetName) -> bool
    requires leaves { All (λ u. u < 2 ^ h) coalition.now }
    requires name { IsOfHeight h name }
    ensures reached { IsTrue result ↔ Any (λ u. IsReached (names_of_receiver h u) (Key name)) coalition.now }
    ensures together { IsTrue result ↔ IsReached (flat_map (names_of_receiver h) coalition.now) (Key name) }
    ensures member { result ≡ list_any (is_member h name) coalition.now }
{
    prove!(h.get() <= 20);
    some_member(h, coalition, name)
}

// Whether some leaf of the coalition is in the set.
fn some_member(h: Height, coalition: &[Leaf], name: SetName) -> bool
    requires leaves { All (λ u. u < 2 ^ h) coalition.now }
    requires name { IsOfHeight h name }
    ensures { result ≡ list_any (is_member h name) coalition.now }
{
    coalition.iter().any(|u| contains(h, name, *u))
}
