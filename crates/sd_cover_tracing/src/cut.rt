ghost use Rattle.std.specs.Prelude.{◌≡◌, ◌<◌};
ghost use Rattle.sd_tree_keys.specs.SetNames.{IsOfHeight};
ghost use Rattle.sd_cover_tracing.specs.Halves.{halves_of, IfHalves};

use sd_tree_keys::{Height, SetName, child_towards, sibling};

/// The halves of a set, none where it has one leaf [Naor, Naor, Lotspiech 2001, 5].
#[tactic(auto, using(crate::proofs::Narrowed::had_halves))]
pub fn halves(h: Height, name: SetName) -> Option<(SetName, SetName)>
    requires { IsOfHeight h name }
    ensures value { result ≡ halves_of h name }
    ensures fits { IfHalves h name result }
{
    cut(h, name)
}

#[tactic(auto, unfolding(crate::specs::Halves::halves_of, crate::specs::Halves::halves_below, crate::specs::Halves::child_to))]
fn cut(h: Height, name: SetName) -> Option<(SetName, SetName)>
    requires { IsOfHeight h name }
    ensures { result ≡ halves_of h name }
{
    let (i, j) = match name {
        SetName::Whole => return Some((SetName::Diff { i: 1, j: 2 }, SetName::Diff { i: 1, j: 3 })),
        SetName::Diff { i, j } => (i, j),
    };
    if j / 2 != i {
        let c = child_towards(i, j);
        return Some((SetName::Diff { i, j: c }, SetName::Diff { i: c, j }));
    }
    let x = sibling(j);
    if x < h.leaves() {
        Some((
            SetName::Diff { i: x, j: 2 * x },
            SetName::Diff { i: x, j: 2 * x + 1 },
        ))
    } else {
        None
    }
}
