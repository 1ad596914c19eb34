ghost use Rattle.std.specs.Prelude.{◌≡◌, ◌^◌, ◌<◌, ◌↔◌, IsSome, IfSome};

use crate::height::Height;
use std::marker::Model;

/// The most leaves that may be revoked at a time.
pub const MOST_REVOKED: usize = 65_536;

/// A leaf of a tree of receivers, numbered from 0 at the left.
#[derive(Clone, Copy, PartialEq, Eq, PartialOrd, Ord)]
pub struct Leaf {
    number: u32,
}

impl Model for Leaf {
    ghost use Rattle.std.specs.Prelude.{ℕ, ◌^◌, ◌<◌};

    ghost Value = { ℕ };

    ghost view = { λ leaf. leaf.number };

    ghost invariant = { λ leaf. leaf.number < 2 ^ 20 };

    ghost inverse = { λ u. record { number = u } };
}

impl Leaf {
    /// Leaf u of a tree of this height, or `None` where there is none.
    pub fn new(h: Height, u: u32) -> Option<Leaf>
        ensures range { IsSome result ↔ (u < 2 ^ h) }
        ensures value { IfSome result (λ leaf. leaf ≡ u) }
    {
        if u < h.leaves() {
            Some(Leaf { number: u })
        } else {
            None
        }
    }

    /// The leaf's number.
    pub fn get(self) -> u32
        ensures value { result ≡ self }
        ensures high { result < 2 ^ 20 }
    {
        self.number
    }
}
