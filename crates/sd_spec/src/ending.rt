ghost use Rattle.std.specs.Prelude.{◌≡◌};
ghost use Rattle.sd_spec.specs.Ending.{endings_joined, rank_of};

/// How a stream ends for a receiver that refused no packet [this project, docs/FORMATS.md, Receiver]. A run is closed
/// if its closing control message is complete. Each run has the first ending of the order `Unclosed`, `Revoked`,
/// `Unheard`, `Gaps`, `Opened` that is true of it. A stream has the first of that order that is the ending of some run,
/// and `NoCat` if no CAT was taken.
#[derive(Clone, Copy, PartialEq, Eq)]
pub enum Ending {
    /// Each run is closed, the key of each of its periods is known, and no fewer clear packets were written than its
    /// closing message counts.
    Opened,
    /// All sections of this period were seen in a closed run, and none has a set with the leaf.
    Revoked(u32),
    /// No section of this period that has a set with the leaf was seen in a closed run, and not all its sections were
    /// seen.
    Unheard(u32),
    /// No CAT for the card's system was taken.
    NoCat,
    /// A run isn't closed: the number of the control message that is awaited next in it, or 0 if none was complete.
    Unclosed(u64),
    /// The number of clear packets that the closing messages count and that were not written, at most 2^64 - 1.
    Gaps(u64),
}

impl Ending {
    /// The ending of runs that follow one another: `self` is that of the earlier ones, `later` that of the later ones.
    /// The numbers of `Gaps` are added, up to 2^64 - 1 [this project, docs/FORMATS.md, Receiver].
    #[tactic(auto, unfolding(crate::specs::Ending::endings_joined))]
    pub fn with(self, later: Ending) -> Ending
        ensures { result ≡ endings_joined self later }
    {
        match (self, later) {
            (Ending::Gaps(missing), Ending::Gaps(more)) => {
                Ending::Gaps(missing.saturating_add(more))
            }
            _ if later.rank() < self.rank() => later,
            _ => self,
        }
    }

    // The place of the ending in the order: of the endings of two runs the one with the lower rank counts.
    fn rank(self) -> u8
        ensures { result ≡ rank_of self }
    {
        match self {
            Ending::NoCat => 0,
            Ending::Unclosed(_) => 1,
            Ending::Revoked(_) => 2,
            Ending::Unheard(_) => 3,
            Ending::Gaps(_) => 4,
            Ending::Opened => 5,
        }
    }
}
