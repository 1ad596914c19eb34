//! No keystream is used twice, in one broadcast or in several of one master.

ghost use Rattle.std.specs.Prelude.{◌≡◌, ◌⊎◌, ◌<◌, ◌↔◌, ℕ, true, false, List, Some, All, Contains, length, slice_get};
ghost use Rattle.sd_base.specs.Types.{Packet, Key, PacketNumber};
ghost use Rattle.sd_packet.specs.Header.{payload_of};
ghost use Rattle.sd_message.specs.EmmSpelled.{listed_entries};
ghost use Rattle.sd_message.specs.declared.emm.Emm.{Emm};
ghost use Rattle.sd_message.specs.declared.emm.Entry.{Entry};
ghost use Rattle.sd_message.specs.declared.ecm_part.EcmPart.{EcmPart};
ghost use Rattle.sd_spec.specs.Plan.{word_of};
ghost use Rattle.sd_spec.specs.Carried.{pmt_carried};
ghost use Rattle.sd_spec.specs.Refused.{IsSendable};
ghost use Rattle.sd_spec.specs.Sent.{Item, Entitles, Controls, Carries};
ghost use Rattle.sd_spec.specs.Items.{IsOfBroadcast};
ghost use Rattle.sd_law_broadcast.specs.Packets.{AreWholePackets};
ghost use Rattle.sd_law_broadcast.specs.Runs.{Run, IsRun, run_sent, run_packet, is_veiled, HaveOwnWords};
ghost use Rattle.sd_law_broadcast.specs.Pads.{Pad, is_for_keys, under_keystream, stream_number_at, entry_pad, part_pad};
ghost use Rattle.sd_law_broadcast.specs.Pads.{payload_pad};
ghost use Rattle.sd_law_broadcast.specs.Pads.{pads_in, pads_of};

/// Each wrapped key and each scrambled payload of a broadcast is the text of its pad XORed with the keystream of the
/// pad's key and number. Any other packet is carried as it was, or as a PMT that has the project's CA_descriptor. The
/// pads of a broadcast are those of the things that it sends.
#[tactic(auto, using(crate::proofs::Texts::entries_lie, crate::proofs::Texts::parts_lie, crate::proofs::Texts::payloads_lie, crate::proofs::Texts::others_stay))]
pub fn texts_lie_under_their_keystreams()
    ensures entries { (run : Run) (emm : Emm) (entry : Entry) → IsOfBroadcast run.plan run.clear (Entitles emm) →
        Contains (listed_entries emm) entry →
        entry.wrapped ≡ under_keystream run.plan.site.master (entry_pad run emm entry) 32 }
    ensures parts { (run : Run) (part : EcmPart) → IsOfBroadcast run.plan run.clear (Controls part) →
        part.wrapped ≡ under_keystream run.plan.site.master (part_pad run part) 32 }
    ensures payloads { (run : Run) (k : PacketNumber) (packet : Packet) → AreWholePackets run.clear →
        IsOfBroadcast run.plan run.clear (Carries k packet) → is_veiled run k ≡ true →
        payload_of packet ≡ under_keystream run.plan.site.master (payload_pad run k) 184 }
    ensures others { (run : Run) (k : PacketNumber) (packet : Packet) →
        IsOfBroadcast run.plan run.clear (Carries k packet) → is_veiled run k ≡ false →
        (packet ≡ run_packet run k) ⊎ (packet ≡ pmt_carried run.plan.site (run_packet run k)) }
    ensures pads { (run : Run) (pad : Pad) → Contains (pads_of run) pad ↔
        ((item : Item) × Contains (run_sent run) item × Contains (pads_in run item) pad) }
{}

/// In one broadcast, texts under one key and one stream number are equal, and two scrambled packets never have the same
/// PID and position. Nothing is asked of the site's control words.
pub fn a_broadcast_repeats_no_keystream()
    ensures texts { (run : Run) (x y : Pad) → IsSendable run.plan.site run.clear → Contains (pads_of run) x →
        Contains (pads_of run) y → x.key ≡ y.key → x.number ≡ y.number → x.text ≡ y.text }
    ensures packets { (run : Run) (j k : PacketNumber) → IsSendable run.plan.site run.clear → j < length run.clear →
        k < length run.clear → is_veiled run j ≡ true → is_veiled run k ≡ true →
        stream_number_at run j ≡ stream_number_at run k → j ≡ k }
{}

/// In broadcasts of one master whose sites have no control word in common, texts under one key and one stream number
/// are equal, and the payloads of two packets are never under one control word and one stream number. For what lies
/// under the keys of sets and periods nothing is asked of the sites. Nothing at all is asked of books, PIDs, schedules.
pub fn broadcasts_repeat_no_keystream()
    ensures keys { (a b : Run) (x y : Pad) → a.plan.site.master ≡ b.plan.site.master → Contains (pads_of a) x →
        Contains (pads_of b) y → x.key ≡ y.key → x.number ≡ y.number → is_for_keys x.key ≡ true → x.text ≡ y.text }
    ensures texts { (master : Key) (runs : List Run) (i j : ℕ) (a b : Run) (x y : Pad) → All (IsRun master) runs →
        HaveOwnWords runs → slice_get runs i ≡ Some a → slice_get runs j ≡ Some b → Contains (pads_of a) x →
        Contains (pads_of b) y → x.key ≡ y.key → x.number ≡ y.number → x.text ≡ y.text }
    ensures packets { (master : Key) (runs : List Run) (i j : ℕ) (k l : PacketNumber) (a b : Run) →
        All (IsRun master) runs → HaveOwnWords runs → slice_get runs i ≡ Some a → slice_get runs j ≡ Some b →
        k < length a.clear → l < length b.clear → is_veiled a k ≡ true → is_veiled b l ≡ true →
        word_of a.plan.site k ≡ word_of b.plan.site l → stream_number_at a k ≡ stream_number_at b l →
        (i ≡ j) × (k ≡ l) }
{}
