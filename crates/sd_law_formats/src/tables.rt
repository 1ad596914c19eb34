//! The items of tables spell bytes in one way, rewriting and restoring a PMT undo each other, and the project's CAT is
//! read as it was written.

ghost use Rattle.std.specs.Prelude.{◌≡◌, ◌≢◌, ◌%◌, ◌^◌, ◌<◌, ◌↔◌, ◌==◌, ◌&&◌, [], ◌∷◌, true, Some, None};
ghost use Rattle.std.specs.Prelude.{if◌then◌else◌, List, ℕ, length};
ghost use Rattle.std.specs.List.{list_all};
ghost use Rattle.sd_psi.specs.declared.items.Kind.{Kind};
ghost use Rattle.sd_psi.specs.declared.items.Kind.TheVariants.{Program};
ghost use Rattle.sd_psi.specs.declared.fault.FormFault.TheVariants.{NoRoom};
ghost use Rattle.sd_psi.specs.Items.{items_of, is_whole_item, are_whole, items_joined};
ghost use Rattle.sd_packet.specs.Packing.{section_packet};
ghost use Rattle.sd_section.specs.Header.{body_of};
ghost use Rattle.sd_psi.specs.Tables.{descriptors_of};
ghost use Rattle.sd_psi.specs.OurCat.{cat_descriptor, cat_section, IsCatDescriptor, is_tuning, cat_tuning};
ghost use Rattle.sd_psi.specs.declared.our_cat.Tuning.{Tuning};
ghost use Rattle.sd_psi.specs.Forms.{section_in, cat_fault};
ghost use Rattle.sd_psi.specs.Rewriting.{pmt_with_descriptor, pmt_without_descriptor, rewrite_fault, restore_fault};
ghost use Rattle.sd_psi.specs.Undone.{IsPacket, KeepsHeader};

/// Bytes are their items one after the other, and items that are as long as they say are those of the bytes that
/// they are.
#[tactic(auto, using(sd_psi::proofs::Grammar::items_spell, sd_psi::proofs::Grammar::spelled_items, sd_psi::proofs::Grammar::spelled_whole))]
pub fn items_are_spelled()
    ensures bytes { (kind : Kind) (bytes : List ℕ) → items_joined (items_of kind bytes) ≡ bytes }
    ensures items { (kind : Kind) (items : List (List ℕ)) → list_all (is_whole_item kind) items ≡ true →
        items_of kind (items_joined items) ≡ items }
    ensures whole { (kind : Kind) (items : List (List ℕ)) → list_all (is_whole_item kind) items ≡ true →
        are_whole kind (items_joined items) ≡ true }
{}

/// Programs fill bytes exactly where their number is a multiple of 4.
#[tactic(auto, using(sd_psi::proofs::Grammar::fours_are_programs, sd_psi::proofs::Grammar::programs_are_fours))]
pub fn programs_have_four_bytes()
    ensures { (bytes : List ℕ) → (are_whole Program bytes ≡ true) ↔ (length bytes % 4 ≡ 0) }
{}

/// A packet that was rewritten may be restored, and is then as it was before.
#[tactic(auto, using(sd_psi::proofs::Inverse::restorable, sd_psi::proofs::Inverse::restored_again))]
pub fn rewriting_is_undone()
    ensures good { (ca pid : ℕ) (packet : List ℕ) → IsPacket packet → rewrite_fault packet ≡ None →
        restore_fault ca pid (pmt_with_descriptor ca pid packet) ≡ None }
    ensures same { (ca pid : ℕ) (packet : List ℕ) → IsPacket packet → rewrite_fault packet ≡ None →
        pmt_without_descriptor (pmt_with_descriptor ca pid packet) ≡ packet }
{}

/// A packet that was restored may be rewritten, and is then as it was before.
#[tactic(auto, using(sd_psi::proofs::Inverse::rewritable, sd_psi::proofs::Inverse::rewritten_again))]
pub fn restoring_is_undone()
    ensures good { (ca pid : ℕ) (packet : List ℕ) → IsPacket packet → restore_fault ca pid packet ≡ None →
        rewrite_fault (pmt_without_descriptor packet) ≡ None }
    ensures same { (ca pid : ℕ) (packet : List ℕ) → IsPacket packet → restore_fault ca pid packet ≡ None →
        pmt_with_descriptor ca pid (pmt_without_descriptor packet) ≡ packet }
{}

/// A packet that is rewritten, or restored, has its header as it was.
pub fn rewritten_headers_stay()
    ensures rewritten { (ca pid : ℕ) (packet : List ℕ) → IsPacket packet →
        KeepsHeader packet (pmt_with_descriptor ca pid packet) }
    ensures restored { (packet : List ℕ) → IsPacket packet → KeepsHeader packet (pmt_without_descriptor packet) }
{}

/// Where a packet that may be restored can't be rewritten, it has no room.
#[tactic(auto, using(sd_psi::proofs::Keeping::full_is_told_apart))]
pub fn full_pmts_are_told_apart()
    ensures { (ca pid : ℕ) (packet : List ℕ) → restore_fault ca pid packet ≡ None → rewrite_fault packet ≢ None →
        rewrite_fault packet ≡ Some NoRoom }
{}

/// The packet of the project's CAT is one, and its descriptors are the one that names the system and both PIDs.
#[tactic(auto, using(sd_psi::proofs::OurCat::our_cat_is_good, sd_psi::proofs::OurCat::our_cat_has_one))]
pub fn our_cat_is_one()
    ensures fault { (ca emm ecm counter : ℕ) → counter < 16 →
        cat_fault (section_packet (cat_section ca emm ecm) 1 counter)
        ≡ None }
    ensures value { (ca emm ecm counter : ℕ) → counter < 16 →
        descriptors_of (body_of (section_in (section_packet (cat_section ca emm ecm) 1 counter)))
        ≡ cat_descriptor ca emm ecm ∷ [] }
    ensures fields { (ca emm ecm : ℕ) → ca < 2 ^ 16 → emm < 8192 → ecm < 8192 →
        IsCatDescriptor ca emm ecm (cat_descriptor ca emm ecm) }
{}

/// A receiver of a system takes from the project's CAT the two PIDs with which it was written, if it was written for
/// this system and the PIDs have positions and differ. Else it takes nothing from it.
#[tactic(auto, using(sd_psi::proofs::OurCat::our_cat_is_read))]
pub fn our_cat_is_read()
    ensures { (ca reader counter : ℕ) (tuning : Tuning) → ca < 2 ^ 16 → tuning.emm < 8192 → tuning.ecm < 8192 →
        counter < 16 → cat_tuning reader (section_packet (cat_section ca tuning.emm tuning.ecm) 1 counter)
        ≡ (if (ca == reader) && is_tuning tuning then Some tuning else None) }
{}
