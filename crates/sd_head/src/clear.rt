ghost use Rattle.std.specs.Prelude.{◌≡◌, ◌≤◌, vec_len, vec_capacity};
ghost use Rattle.sd_message.specs.declared.ecm_format.TheConstants.{MOST_PLACES};
ghost use Rattle.sd_head.specs.Known.{ArePids, AreReachablePositions};

/// How many PIDs there are (ISO/IEC 13818-1, 2.4.3.2).
pub(crate) const PIDS: usize = 8192;

/// The position of a PID that no packet has moved.
pub(crate) const FIRST_POSITION: u64 = 15;

/// The state after the clear packets so far: how many they are, the positions of PIDs, and the PIDs of PMTs.
#[derive(Drop)]
pub struct Clear {
    pub(crate) count: u32,
    // The position of each PID, indexed by PID.
    pub(crate) positions: Vec<u64>,
    // The PIDs whose positions have moved, ascending.
    pub(crate) pids: Vec<u16>,
    // Whether the PAT in force gives the PID to a PMT, indexed by PID.
    pub(crate) pmts: Vec<bool>,
    pub ghost positions_long: { vec_len positions ≡ 8192 },
    pub ghost pmts_long: { vec_len pmts ≡ 8192 },
    pub ghost pids_few: { vec_len pids ≤ MOST_PLACES },
    pub ghost pids_room: { MOST_PLACES ≤ vec_capacity pids },
    pub ghost pids_known: { ArePids pids.items },
    pub ghost positions_near: { AreReachablePositions count positions.items },
}
