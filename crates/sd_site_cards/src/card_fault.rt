ghost use Rattle.std.specs.Prelude.{◌≡◌};
ghost use Rattle.sd_site_cards.specs.declared.card_fault.CardFault.TheVariants.{NoMemory};

use std::alloc::AllocError;

/// Why bytes are no card's file: the first field from the left that isn't good, where a byte that isn't there counts as
/// 0.
#[derive(Clone, Copy, PartialEq, Eq)]
pub enum CardFault {
    /// The first four bytes aren't `SDCD`.
    Magic,
    /// The version isn't 1.
    Version,
    /// The height isn't 1 to 20.
    Height,
    /// The leaf isn't one of a tree of that height.
    Leaf,
    /// There are more or fewer bytes than a card of that height has.
    Length,
    /// The check at the end isn't that of the bytes before it.
    Check { found: [u8; 16], due: [u8; 16] },
    /// Nothing is wrong with the bytes, and memory is out.
    NoMemory,
}

impl From<AllocError> for CardFault {
    ghost from_gives = { λ _ fault. fault ≡ NoMemory };

    fn from(_error: AllocError) -> CardFault {
        CardFault::NoMemory
    }
}
