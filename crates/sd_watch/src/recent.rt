ghost use Rattle.std.specs.Prelude.{◌<◌, ◌≤◌, vec_capacity};

use sd_packet::Packet;

/// Among how many scrambled packets a copy is looked for [this project, docs/FORMATS.md, Receiver].
pub const MOST_AGAIN: usize = 15;

/// How many tags are compared at once. Those behind the packets' own are of no packet.
pub const TAGS: usize = 16;

/// The last scrambled packets that counted.
#[derive(Drop)]
pub struct Recent {
    // The packets. Once there are 15, each new one comes in place of the oldest one.
    pub(crate) packets: Vec<Packet>,
    // Their tags, in the same order. Where none is that of a packet, the packet is none of them.
    pub(crate) tags: [u16; TAGS],
    // The index of the oldest one.
    pub(crate) oldest: usize,
    ghost room: { 15 ≤ vec_capacity packets },
    ghost place: { oldest < 15 },
}
