ghost use Rattle.std.specs.Prelude.{◌≡◌, ◌+◌, ◌*◌, ◌/◌, ◌≤◌};
ghost use Rattle.sd_tree_keys.specs.declared.height.TheConstants.{HIGHEST};

use sd_tree_keys::Height;

// How many secrets a card holds at this height.
pub(crate) fn count_at(h: Height) -> usize
    ensures value { result ≡ h * (h + 1) / 2 + 1 }
    ensures fits { h ≤ HIGHEST }
{
    let d = usize::from(h.get());
    d * (d + 1) / 2 + 1
}
