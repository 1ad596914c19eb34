ghost use Rattle.std.specs.Prelude.{◌≡◌};
ghost use Rattle.sd_message.specs.EmmFaults.{emm_fault_name};

/// Why a section of entitlements isn't one that this project writes.
#[derive(Clone, Copy, PartialEq, Eq)]
pub enum EmmFault {
    /// The count of entries, the number of sections or the index isn't what the number of sets and the length come to.
    Count,
    /// The entries aren't strictly ascending.
    Order,
    /// An entry is no set of the height, or it is the whole set beside others.
    Node,
    /// Sections of one period say different things of it. It isn't a fault of one section, so reading one never gives
    /// it.
    Mixed,
}

impl EmmFault {
    /// The name of the fault, as it is printed.
    #[tactic(auto, unfolding(crate::specs::EmmFaults::emm_fault_name))]
    pub fn name(self) -> &'static str
        ensures { result.now ≡ emm_fault_name self }
    {
        match self {
            EmmFault::Count => "count",
            EmmFault::Order => "order",
            EmmFault::Node => "node",
            EmmFault::Mixed => "mixed",
        }
    }
}
