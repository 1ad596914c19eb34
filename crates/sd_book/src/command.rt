use sd_tree_keys::Leaf;

/// A line of a book.
#[derive(Clone, Copy, PartialEq, Eq)]
pub enum Command {
    /// The leaf is no longer revoked.
    Subscribe(Leaf),
    /// The leaf is revoked.
    Revoke(Leaf),
    /// The next period begins.
    Period,
}
