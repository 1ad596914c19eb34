ghost use Rattle.std.specs.Prelude.{◌≡◌, ◌^◌, ◌<◌};
ghost use Rattle.sd_packet.specs.Positions.{is_positional as is_positional_pid, advanced, IsNextPosition};

/// The lowest PID whose packets have positions.
pub const LOWEST_POSITIONAL: u16 = 0x0020;

/// The highest PID whose packets have positions.
pub const HIGHEST_POSITIONAL: u16 = 0x1FEF;

/// Whether packets of the PID have positions.
pub fn is_positional(pid: u16) -> bool
    ensures { result ≡ is_positional_pid pid }
{
    (LOWEST_POSITIONAL..=HIGHEST_POSITIONAL).contains(&pid)
}

/// The position that a packet with this counter leads to: the next number that equals the counter mod 16.
#[tactic(auto, using(crate::proofs::Positions::advanced_is_next), unfolding(crate::specs::Positions::advanced))]
pub fn advance(position: u64, counter: u8) -> u64
    requires counter { counter < 16 }
    requires position { position < 2 ^ 63 }
    ensures value { result ≡ advanced position counter }
    ensures next { IsNextPosition position counter result }
{
    let next = position + 1;
    next + u64::from(counter).wrapping_sub(next) % 16
}
