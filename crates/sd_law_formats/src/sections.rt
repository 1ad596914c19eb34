//! What is read from the sections that this project writes, and what CRCs come to.

ghost use Rattle.std.specs.Prelude.{◌≡◌, ◌≤◌, ◌++◌, None, List, ℕ, length, ◌<◌, ◌^◌};
ghost use Rattle.sd_section.specs.Header.{longest_body, whole_of};
ghost use Rattle.sd_section.specs.Judged.{section_fault};
ghost use Rattle.sd_section.specs.Written.{section_bytes, FitsHeaderFields, IsWrittenSection};
ghost use Rattle.sd_section.specs.declared.write.Header.{Header};
ghost use Rattle.std.specs.Int.{w32, to_be_bytes};
ghost use Rattle.sd_section.specs.Crc.{crc_of};

/// A written section is read whole whatever stands after it, and what is read is what was written.
#[tactic(auto, using(sd_section::proofs::Spelling::none_is_wrong, sd_section::proofs::Spelling::whole_is_read))]
pub fn written_sections_are_read()
    ensures good { (header : Header) (body rest : List ℕ) → FitsHeaderFields header → length body ≤ longest_body →
        section_fault (section_bytes header body ++ rest) ≡ None }
    ensures whole { (header : Header) (body rest : List ℕ) → FitsHeaderFields header → length body ≤ longest_body →
        whole_of (section_bytes header body ++ rest) ≡ section_bytes header body }
    ensures fields { (header : Header) (body : List ℕ) → FitsHeaderFields header → length body ≤ longest_body →
        IsWrittenSection header body (section_bytes header body) }
{}

/// A CRC has 32 bits, and bytes with their own CRC after them, its highest byte first, have CRC 0.
#[tactic(auto, using(sd_section::proofs::Words::crc_below, sd_section::proofs::Words::crc_of_sealed))]
pub fn sealed_bytes_give_0()
    ensures fits { (bytes : List ℕ) → crc_of bytes < 2 ^ 32 }
    ensures sealed { (bytes : List ℕ) → crc_of (bytes ++ to_be_bytes w32 (crc_of bytes)) ≡ 0 }
{}
