ghost use Rattle.std.specs.Prelude.{◌≡◌};
ghost use Rattle.sd_message.specs.EcmFaults.{ecm_fault_name};

/// Why a section isn't a part of a control message that this project writes.
#[derive(Clone, Copy, PartialEq, Eq)]
pub enum EcmFault {
    /// The number of positions differs from the number that the length leaves room for, or that the part must have.
    Count,
    /// The PIDs aren't strictly ascending.
    Order,
    /// A PID is one that has no positions.
    Pid,
    /// The flags are above 1, or the table_id isn't that of the control word's number. Parts of one message that say
    /// different things of it are this too.
    Mixed,
    /// Messages go back. It isn't a fault of one section, so reading one never gives it.
    Back,
}

impl EcmFault {
    /// The name of the fault, as it is printed.
    #[tactic(auto, unfolding(crate::specs::EcmFaults::ecm_fault_name))]
    pub fn name(self) -> &'static str
        ensures { result.now ≡ ecm_fault_name self }
    {
        match self {
            EcmFault::Count => "count",
            EcmFault::Order => "order",
            EcmFault::Pid => "pid",
            EcmFault::Mixed => "mixed",
            EcmFault::Back => "back",
        }
    }
}
