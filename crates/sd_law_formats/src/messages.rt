//! What framing and reading come to.

ghost use Rattle.std.specs.Prelude.{◌≡◌, ◌<◌, ◌≤◌, ℕ, List, length};
ghost use Rattle.sd_packet.specs.Packing.{section_packet};
ghost use Rattle.sd_section.specs.Written.{section_bytes, FitsHeaderFields};
ghost use Rattle.sd_section.specs.declared.write.Header.{Header};
ghost use Rattle.std.specs.Bool.{Decides};
ghost use Rattle.sd_message.specs.Framed.{HasSection, frames_section, BeginsWithSection, section_of};

/// A section that this project writes is read from each packet that begins with it, and the packet that is packed of it
/// does.
#[tactic(auto, using(sd_message::proofs::Framing::packed_begins, sd_message::proofs::Framing::begun_is_there, sd_message::proofs::Framing::begun_is_read))]
pub fn framed_sections_are_read()
    ensures begins { (section : List ℕ) (pid counter : ℕ) → pid < 8192 → counter < 16 →
        BeginsWithSection section (section_packet section pid counter) }
    ensures read { (header : Header) (body packet : List ℕ) → FitsHeaderFields header → length body ≤ 4084 →
        BeginsWithSection (section_bytes header body) packet → HasSection packet }
    ensures value { (header : Header) (body packet : List ℕ) → FitsHeaderFields header → length body ≤ 4084 →
        BeginsWithSection (section_bytes header body) packet → section_of packet ≡ section_bytes header body }
{}

/// Whether a packet begins with a section of this project can be computed.
#[tactic(auto, using(sd_message::proofs::Deciding::tells_section))]
pub fn sections_are_told()
    ensures { (packet : List ℕ) → Decides (frames_section packet) (HasSection packet) }
{}
