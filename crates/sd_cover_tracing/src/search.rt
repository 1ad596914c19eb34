ghost use Rattle.std.specs.Prelude.{◌≡◌, ℕ, ◌+◌, ◌-◌, ◌*◌, ◌^◌, ◌<◌, List, All, Some, length};
ghost use Rattle.sd_tree_keys.specs.SetNames.{IsOfHeight};
ghost use Rattle.sd_cover_tracing.specs.Search.{IsLastOpen, halvings, right_from};

use crate::target::TestBox;
use sd_tree_keys::SetName;

/// The place of the last set that opens, and how many probes it took. `marks` are as many wrong and then as many right
/// keys as there are sets.
pub fn last_open<B: TestBox>(sets: &[SetName], marks: &[bool], target: &mut B) -> (usize, u32)
    requires some { 0 < length sets.now }
    requires few { length sets.now < 2 ^ 32 }
    requires marks { marks.now ≡ right_from (length sets.now) (length sets.now) }
    requires names { All (λ name. IsOfHeight (B.height target.old) name) sets.now }
    requires room { B.asked target.old < 2 ^ 63 + 2 ^ 40 }
    ensures within { result.0 < length sets.now }
    ensures turns { 2 ^ result.1 < 2 * length sets.now }
    ensures asked { B.asked target.new ≡ B.asked target.old + result.1 }
    ensures told { (leaves : List ℕ) (z : ℕ) → B.coalition target.old ≡ Some leaves →
        IsLastOpen (B.height target.old) leaves sets.now z →
        (result.0 ≡ z) × (result.1 ≡ halvings (length sets.now) 0 (length sets.now) z) }
    ensures height { B.height target.new ≡ B.height target.old }
    ensures coalition { B.coalition target.new ≡ B.coalition target.old }
{
    let count = sets.len();
    let mut lo = 0;
    let mut hi = count;
    let mut turns = 0u32;
    while lo + 1 < hi {
        let m = (lo + hi) / 2;
        turns += 1;
        if target.probe(sets, &marks[count - m..2 * count - m]) {
            lo = m;
        } else {
            hi = m;
        }
    }
    (lo, turns)
}
