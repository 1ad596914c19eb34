ghost use Rattle.std.specs.Prelude.{◌≡◌, ℕ, ◌+◌, ◌-◌, ◌^◌, ◌<◌, List, Option, Some, All, length};
ghost use Rattle.sd_tree_keys.specs.SetNames.{IsOfHeight};
ghost use Rattle.sd_cover_tracing.specs.Search.{opens_some};

use sd_tree_keys::SetName;

/// A box that opens what some of the cards inside it open.
pub trait TestBox {
    /// The height of the tree of receivers.
    ghost height: { Self → ℕ };

    /// The leaves of the cards inside, where the box tells them.
    ghost coalition: { Self → Option (List ℕ) };

    /// How often it was probed.
    ghost asked: { Self → ℕ };

    /// Whether the box opens a key sent under each of these sets, where only the marked ones have the right key.
    fn probe(&mut self, sets: &[SetName], right: &[bool]) -> bool
        requires lengths { length sets.now ≡ length right.now }
        requires names { All (λ name. IsOfHeight (height self.old) name) sets.now }
        requires room { asked self.old < 2 ^ 64 - 1 }
        ensures asked { asked self.new ≡ asked self.old + 1 }
        ensures height { height self.new ≡ height self.old }
        ensures coalition { coalition self.new ≡ coalition self.old }
        ensures answer { (leaves : List ℕ) → coalition self.old ≡ Some leaves →
            result ≡ opens_some (height self.old) leaves sets.now right.now };
}
