//! What writing and reading come to.

ghost use Rattle.std.specs.Prelude.{◌≡◌, ◌+◌, ◌*◌, ◌%◌, ◌<◌, ℕ, List, Ok, Some, All, length, flat_map, slice_get};
ghost use Rattle.sd_section.specs.Header.{table_id_of};
ghost use Rattle.sd_message.specs.Framed.{section_of};
ghost use Rattle.sd_message.specs.EcmVersions.{positions_for, even_table_id};
ghost use Rattle.sd_packet.specs.Packing.{section_packet};
ghost use Rattle.sd_message.specs.EcmSpelled.{listed_places, ecm_section, SpellsPart};
ghost use Rattle.sd_message.specs.EcmForm.{ArePidsAscending, IsEcm, FitsEcmFields};
ghost use Rattle.sd_message.specs.EcmJudged.{ecm_read};
ghost use Rattle.sd_message.specs.EcmParts.{Message, part_count_of, part_at, parts_of, IsMessage, IsOfMessage, SaySame};
ghost use Rattle.sd_message.specs.declared.ecm_part.EcmPart.{EcmPart};

use sd_message::{EcmFault, EcmPart, read_ecm, write_ecm};

/// What is written is read as what was written.
pub fn written_is_read(part: &EcmPart, pid: u16, counter: u8) -> Result<Option<EcmPart>, EcmFault>
    requires form { IsEcm part.now }
    requires pid { pid < 8192 }
    requires counter { counter < 16 }
    ensures { result ≡ Ok (Some part.now) }
{
    read_ecm(&write_ecm(part, pid, counter))
}

/// The packet of a part begins with its section.
pub fn written_packets_spell()
    ensures { (part : EcmPart) (pid counter : ℕ) → pid < 8192 → counter < 16 →
        SpellsPart part (section_packet (ecm_section part) pid counter) }
{}

/// A message's parts share out its positions: there are as many as have room for them, each stands at its number and
/// says the same of the message, position k stands in part k / n at place k mod n, n being how many fit into a part,
/// and joined they have all positions, in their order. Of a message with ascending PIDs each part is one that is
/// written, and that is read.
#[tactic(auto, using(crate::proofs::SharedParts::shared_parts))]
pub fn messages_are_shared_out()
    ensures parts { (message : Message) → length (parts_of message) ≡ part_count_of message }
    ensures at { (message : Message) (x : ℕ) → x < part_count_of message →
        slice_get (parts_of message) x ≡ Some (part_at message x) }
    ensures number { (message : Message) (x : ℕ) (part : EcmPart) → slice_get (parts_of message) x ≡ Some part →
        part.part ≡ x }
    ensures place { (message : Message) (q r k : ℕ) → positions_for message.version * q + r ≡ k →
        r < positions_for message.version →
        k < length message.places → slice_get (listed_places (part_at message q)) r ≡ slice_get message.places k }
    ensures places { (message : Message) → flat_map listed_places (parts_of message) ≡ message.places }
    ensures ascending { (message : Message) → ArePidsAscending message.places →
        ArePidsAscending (flat_map listed_places (parts_of message)) }
    ensures says { (message : Message) → All (IsOfMessage message) (parts_of message) }
    ensures same { (message : Message) (x y : ℕ) (a b : EcmPart) → slice_get (parts_of message) x ≡ Some a →
        slice_get (parts_of message) y ≡ Some b → SaySame a b }
    ensures form { (message : Message) → IsMessage message →
        All (λ part. IsEcm part × FitsEcmFields part) (parts_of message) }
{}

/// The reader as a function: each packet that begins with the section of a part in its form is read as that part, and
/// what is read is in its form.
#[tactic(auto, using(sd_message::proofs::EcmDeciding::spelled_reads, sd_message::proofs::EcmDeciding::packed_reads))]
pub fn spelled_parts_are_read()
    ensures spelled { (part : EcmPart) (packet : List ℕ) → FitsEcmFields part → IsEcm part → SpellsPart part packet →
        ecm_read packet ≡ Ok (Some part) }
    ensures packed { (part : EcmPart) (pid counter : ℕ) → FitsEcmFields part → IsEcm part → pid < 8192 → counter < 16 →
        ecm_read (section_packet (ecm_section part) pid counter) ≡ Ok (Some part) }
    ensures form { (packet : List ℕ) (part : EcmPart) → ecm_read packet ≡ Ok (Some part) → IsEcm part }
{}

/// The table_id of a part is the version's for an even control word and the next for an odd one, as it is written and
/// as it is read.
#[tactic(auto, using(crate::proofs::SharedParts::parities))]
pub fn table_ids_tell_parity()
    ensures table_id { (part : EcmPart) → FitsEcmFields part → IsEcm part →
        table_id_of (ecm_section part) ≡ even_table_id part.version + part.word % 2 }
    ensures written { (part : EcmPart) → FitsEcmFields part → IsEcm part →
        table_id_of (ecm_section part) % 2 ≡ part.word % 2 }
    ensures read { (packet : List ℕ) (part : EcmPart) → ecm_read packet ≡ Ok (Some part) →
        table_id_of (section_of packet) % 2 ≡ part.word % 2 }
{}
