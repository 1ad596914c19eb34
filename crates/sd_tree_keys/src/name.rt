/// What a receiver is given a secret of: the whole set, or the label of node w under its ancestor i.
#[derive(Clone, Copy, PartialEq, Eq)]
pub enum Name {
    /// The set of all leaves.
    Whole,
    /// The label of node `w` under its ancestor `i` (Naor, Naor and Lotspiech, 2001, 3.2).
    Pair { i: u32, w: u32 },
}
