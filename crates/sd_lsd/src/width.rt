ghost use Rattle.std.specs.Prelude.{◌≡◌, ◌≤◌, ◌↔◌, IsSome, IfSome};
ghost use Rattle.sd_tree_keys.specs.declared.height.TheConstants.{HIGHEST};

use sd_tree_keys::Height;
use std::marker::Model;

/// The width of a layer: how many levels of the tree it has, 1 to the tree's height.
#[derive(Clone, Copy)]
pub struct Width {
    levels: u8,
}

impl Model for Width {
    ghost use Rattle.std.specs.Prelude.{ℕ, ◌≤◌};
    ghost use Rattle.sd_tree_keys.specs.declared.height.TheConstants.{HIGHEST};

    ghost Value = { ℕ };

    ghost view = { λ w. w.levels };

    ghost invariant = { λ w. (1 ≤ w.levels) × (w.levels ≤ HIGHEST) };

    ghost inverse = { λ n. record { levels = n } };
}

impl Width {
    /// The width w, or `None` where it isn't 1 to the height.
    pub fn new(h: Height, w: u8) -> Option<Width>
        ensures range { IsSome result ↔ ((1 ≤ w) × (w ≤ h)) }
        ensures value { IfSome result (λ width. width ≡ w) }
    {
        if (1..=h.get()).contains(&w) {
            Some(Width { levels: w })
        } else {
            None
        }
    }

    /// The width as a number.
    pub fn get(self) -> u8
        ensures value { result ≡ self }
        ensures low { 1 ≤ result }
        ensures high { result ≤ HIGHEST }
    {
        self.levels
    }
}
