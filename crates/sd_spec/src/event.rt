use sd_tree_keys::Leaf;

/// One event of a field: a command for the book, a clear packet that is sent, or what happens to one receiver.
#[derive(Clone, Copy)]
pub enum Event {
    /// The leaf is no longer revoked, from the command's period on.
    Subscribe(Leaf),
    /// The leaf is revoked, from the command's period on.
    Revoke(Leaf),
    /// The head end sends the next clear packet.
    Send,
    /// The leaf's receiver is offered the next packet that it hasn't passed.
    Offer(Leaf),
    /// The next packet that the leaf's receiver hasn't passed is lost on its way.
    Lose(Leaf),
    /// The leaf's receiver is switched off.
    Off(Leaf),
    /// The leaf's receiver is switched on, as a new receiver.
    On(Leaf),
}
