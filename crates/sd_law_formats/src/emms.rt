//! What writing and reading come to.

ghost use Rattle.std.specs.Prelude.{◌≡◌, ◌<◌, ◌≤◌, ◌/◌, ◌%◌, ℕ, List, Ok, Some, All, length, flat_map, slice_get};
ghost use Rattle.sd_packet.specs.Packing.{section_packet};
ghost use Rattle.sd_message.specs.EmmSpelled.{listed_entries, emm_section, SpellsEmm};
ghost use Rattle.sd_message.specs.EmmForm.{AreSets, IsEmm, FitsEmmFields, sections_for};
ghost use Rattle.sd_message.specs.EmmJudged.{emm_read};
ghost use Rattle.sd_message.specs.Period.{Period, emm_at, emms_of, IsPeriod, IsOfPeriod, SaysSame};
ghost use Rattle.sd_message.specs.declared.emm.Emm.{Emm};

use sd_message::{Emm, EmmFault, read_emm, write_emm};
use sd_tree_keys::Height;

/// What is written is read as what was written, at each height at which the entries are sets that may stand there.
pub fn written_is_read(h: Height, emm: &Emm, pid: u16, counter: u8) -> Result<Option<Emm>, EmmFault>
    requires form { IsEmm emm.now }
    requires sets { AreSets h emm.now.sets (listed_entries emm.now) }
    requires pid { pid < 8192 }
    requires counter { counter < 16 }
    ensures { result ≡ Ok (Some emm.now) }
{
    read_emm(h, &write_emm(emm, pid, counter))
}

/// The packet of entitlements begins with their section.
#[tactic(auto, using(sd_message::proofs::EmmReading::written_spells))]
pub fn written_packets_spell()
    ensures { (emm : Emm) (pid counter : ℕ) → pid < 8192 → counter < 16 →
        SpellsEmm emm (section_packet (emm_section emm) pid counter) }
{}

/// A period's sections share out its sets: there are as many as have room for them, each stands at its index and says
/// the same of the period, set k stands in section k / 3, and joined they have all sets. Of a period with ascending
/// sets each section is one that is written, and that is read at each height at which the period's sets may stand.
#[tactic(auto, using(crate::proofs::SharedSections::shared_sections))]
pub fn periods_are_shared_out()
    ensures sections { (period : Period) → length (emms_of period) ≡ sections_for (length period.entries) }
    ensures at { (period : Period) (x : ℕ) → x < sections_for (length period.entries) →
        slice_get (emms_of period) x ≡ Some (emm_at period x) }
    ensures index { (period : Period) (x : ℕ) (emm : Emm) → slice_get (emms_of period) x ≡ Some emm → emm.index ≡ x }
    ensures set { (period : Period) (k : ℕ) → k < length period.entries →
        slice_get (listed_entries (emm_at period (k / 3))) (k % 3) ≡ slice_get period.entries k }
    ensures entries { (period : Period) → flat_map listed_entries (emms_of period) ≡ period.entries }
    ensures says { (period : Period) → All (IsOfPeriod period) (emms_of period) }
    ensures same { (period : Period) (x y : ℕ) (a b : Emm) → slice_get (emms_of period) x ≡ Some a →
        slice_get (emms_of period) y ≡ Some b → SaysSame a b }
    ensures form { (period : Period) → IsPeriod period → All (λ emm. IsEmm emm × FitsEmmFields emm) (emms_of period) }
    ensures sets { (h : ℕ) (period : Period) → AreSets h (length period.entries) period.entries →
        All (λ emm. AreSets h emm.sets (listed_entries emm)) (emms_of period) }
{}

/// The reader as a function: each packet that begins with the section of entitlements in their form is read as them, at
/// each height at which their sets may stand, and what is read is in its form.
#[tactic(auto, using(sd_message::proofs::EmmDeciding::spelled_reads, sd_message::proofs::EmmDeciding::packed_reads))]
pub fn spelled_entitlements_are_read()
    ensures spelled { (h : ℕ) (emm : Emm) (packet : List ℕ) → h ≤ 20 → FitsEmmFields emm → IsEmm emm →
        AreSets h emm.sets (listed_entries emm) →
        SpellsEmm emm packet → emm_read h packet ≡ Ok (Some emm) }
    ensures packed { (h : ℕ) (emm : Emm) (pid counter : ℕ) → h ≤ 20 → FitsEmmFields emm → IsEmm emm →
        AreSets h emm.sets (listed_entries emm) →
        pid < 8192 → counter < 16 → emm_read h (section_packet (emm_section emm) pid counter) ≡ Ok (Some emm) }
    ensures form { (h : ℕ) (packet : List ℕ) (emm : Emm) → emm_read h packet ≡ Ok (Some emm) →
        IsEmm emm × AreSets h emm.sets (listed_entries emm) }
{}
