use sd_tree_keys::Leaf;
use std::alloc::AllocError;

/// A leaf that was found, with the probes and the cuts that its round took.
#[derive(Clone, Copy)]
pub struct Found {
    /// The leaf.
    pub leaf: Leaf,
    /// How often the box was probed for it.
    pub trials: u32,
    /// How often the set that opened was cut.
    pub splits: u32,
}

/// Why a search didn't end.
#[derive(Clone, Copy)]
pub enum TraceFault {
    /// A leaf was found while 65,536 were revoked or found.
    TooMany,
    /// Memory ran out.
    NoMemory,
}

impl From<AllocError> for TraceFault {
    ghost use Rattle.std.specs.Prelude.{◌≡◌};
    ghost use Rattle.sd_cover_tracing.specs.declared.found.TraceFault.TheVariants.{NoMemory};

    ghost from_gives = { λ _ e. e ≡ NoMemory };

    fn from(_error: AllocError) -> TraceFault {
        TraceFault::NoMemory
    }
}
