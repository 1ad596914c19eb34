ghost use Rattle.std.specs.Prelude.{◌≡◌, ◌^◌, ◌≤◌, ◌↔◌, IsSome, IfSome};

use std::marker::Model;

/// The greatest height of a tree.
pub const HIGHEST: u8 = 20;

/// The height of a tree of receivers, 1 to 20.
#[derive(Clone, Copy, PartialEq, Eq)]
pub struct Height {
    depth: u8,
}

impl Model for Height {
    ghost use Rattle.std.specs.Prelude.{ℕ, ◌≤◌};
    ghost use Rattle.sd_tree_keys.specs.declared.height.TheConstants.{HIGHEST};

    ghost Value = { ℕ };

    ghost view = { λ h. h.depth };

    ghost invariant = { λ h. (1 ≤ h.depth) × (h.depth ≤ HIGHEST) };

    ghost inverse = { λ d. record { depth = d } };
}

impl Height {
    /// The height d, or `None` where it isn't 1 to 20.
    pub fn new(d: u8) -> Option<Height>
        ensures range { IsSome result ↔ ((1 ≤ d) × (d ≤ HIGHEST)) }
        ensures value { IfSome result (λ h. h ≡ d) }
    {
        if (1..=HIGHEST).contains(&d) {
            Some(Height { depth: d })
        } else {
            None
        }
    }

    /// The number of leaves, 2^d.
    #[tactic(auto, using(crate::proofs::Powers::leaves_bounds))]
    pub fn leaves(self) -> u32
        ensures value { result ≡ 2 ^ self }
        ensures low { 2 ≤ result }
        ensures high { result ≤ 2 ^ 20 }
    {
        1 << self.depth
    }

    /// The height as a number.
    pub fn get(self) -> u8
        ensures value { result ≡ self }
        ensures low { 1 ≤ result }
        ensures high { result ≤ HIGHEST }
    {
        self.depth
    }
}
