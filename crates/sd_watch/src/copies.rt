ghost use Rattle.std.specs.Prelude.{◌≡◌, ◌≢◌, ◌==◌, ◌∷◌, List, ℕ, [], IfOk, bytes_eq};
ghost use Rattle.std.specs.List.{list_any};
ghost use Rattle.sd_packet.specs.Header.{scrambling_of};
ghost use Rattle.sd_spec.specs.Counting.{is_copy};
ghost use Rattle.sd_watch.specs.Tags.{packet_tag};
ghost use Rattle.sd_watch.specs.Watching.{IsRecent};

use crate::recent::{MOST_AGAIN, Recent, TAGS};
use sd_base::NoMemory;
use sd_packet::Packet;
use std::alloc::Global;

impl Recent {
    /// No packet. All memory is allocated here.
    #[tactic(auto, using(crate::proofs::Recents::none_kept))]
    pub fn new(alloc: Global) -> Result<Recent, NoMemory>
        ensures { IfOk result (IsRecent []) }
    {
        match Vec::with_capacity(alloc, MOST_AGAIN) {
            Ok(packets) => Ok(Recent {
                packets,
                tags: [0; TAGS],
                oldest: 0,
            }),
            Err(_) => Err(NoMemory),
        }
    }

    /// Whether the packet is scrambled, and equal to one of them.
    #[tactic(auto, using(crate::proofs::Recents::clear_no_copy))]
    pub fn has(&self, packet: &Packet) -> bool
        ensures { (past : List (List ℕ)) → IsRecent past self.now → result ≡ is_copy past packet.now }
    {
        if packet.scrambling() == 0 {
            return false;
        }
        has_tag(&self.tags, tag_of(packet)) && is_among(packet, &self.packets)
    }

    /// Takes a packet that counts.
    #[tactic(auto, using(crate::proofs::Recents::clear_more))]
    pub fn push(&mut self, packet: &Packet)
        ensures { (past : List (List ℕ)) → IsRecent past self.old → IsRecent (packet.now ∷ past) self.new }
    {
        if packet.scrambling() != 0 {
            self.put(packet);
        }
    }

    // Takes a scrambled packet. If there are 15, it comes in place of the oldest one.
    #[tactic(auto, using(crate::proofs::Recents::added))]
    fn put(&mut self, packet: &Packet)
        ensures { (past : List (List ℕ)) → IsRecent past self.old → scrambling_of packet.now ≢ 0 →
            IsRecent (packet.now ∷ past) self.new }
    {
        if self.packets.len() < MOST_AGAIN {
            self.tags[self.packets.len()] = tag_of(packet);
            self.packets.push(*packet).unwrap();
            return;
        }
        self.tags[self.oldest] = tag_of(packet);
        self.packets[self.oldest] = *packet;
        self.oldest = (self.oldest + 1) % MOST_AGAIN;
    }
}

// Whether the packet is one of these.
fn is_among(packet: &Packet, packets: &[Packet]) -> bool
    ensures { result ≡ list_any (bytes_eq packet.now) packets.now }
{
    packets.iter().any(|other| packet == other)
}

// What tells most packets apart: the PID's low byte, and the byte with the continuity counter.
#[inline(always)]
#[tactic(auto, unfolding(crate::specs::Tags::packet_tag))]
fn tag_of(packet: &Packet) -> u16
    ensures { result ≡ packet_tag packet.now }
{
    let bytes = packet.bytes();
    u16::from(bytes[2]) * 256 + u16::from(bytes[3])
}

// Whether the tag is one of these. All are compared, at once.
#[inline(always)]
fn has_tag(tags: &[u16; TAGS], tag: u16) -> bool
    ensures { result ≡ list_any (λ other. other == tag) tags.now }
{
    let mut found = false;
    for at in 0..TAGS {
        found |= tags[at] == tag;
    }
    found
}
