//! Site files: what is written is read, what is torn is not, and how long they are.

ghost use Rattle.std.specs.Prelude.{◌≡◌, ◌≢◌, ℕ, ◌<◌, ◌≤◌, All, List, length, Bool, true, Option, Some, Ok, Err};
ghost use Rattle.sd_ports.specs.Bytes.{IsPrefix};
ghost use Rattle.sd_site_cards.specs.SiteFields.{SiteFields};
ghost use Rattle.sd_site_cards.specs.Forms.{digest_bytes, most_book_size};
ghost use Rattle.sd_site_cards.specs.Text.{IsSite};
ghost use Rattle.sd_site_cards.specs.Written.{IsSayable, is_first_site, are_lines_whole, site_of_chain, none_fewer};
ghost use Rattle.sd_site_cards.specs.Written.{site_text};
ghost use Rattle.sd_site_cards.specs.declared.book_line.BookLine.{BookLine};
ghost use Rattle.sd_site_cards.specs.declared.site_fault.SiteFault.TheVariants.{Range};

/// A site file has at most 317 bytes.
pub fn sites_are_short()
    ensures { (bytes : List ℕ) (site : SiteFields) → IsSite bytes site → length bytes ≤ 317 }
{}

/// What a site file says can be written, with any book.
pub fn read_sites_are_sayable()
    ensures { (bytes : List ℕ) (site : SiteFields) (book : BookLine) → IsSite bytes site → book.size ≤ most_book_size →
        (length book.digest ≡ digest_bytes) × All (λ byte. byte < 256) book.digest → IsSayable site book }
{}

/// A site file that is written is read as the site and the book that it was written from. It has at most 317 bytes.
#[tactic(auto, using(crate::proofs::WrittenSites::site_read, crate::proofs::ShortSites::short_written))]
pub fn written_sites_are_read()
    ensures read { (fewer : List ℕ → SiteFields → Bool) (site : SiteFields) (book : BookLine) → IsSayable site book →
        site_of_chain fewer (site_text site book) ≡ Ok (site, Some book) }
    ensures short { (site : SiteFields) (book : BookLine) → IsSayable site book → length (site_text site book) ≤ 317 }
{}

/// No next site is made from a torn site file: one that is a proper prefix of what was written for a site with control
/// words. It isn't whole, and isn't a first site either. It is refused, and not since line 12 is out of range. No twin
/// is made from a torn site file, whatever the site.
#[tactic(auto, using(crate::proofs::TornSites::torn_not_whole, crate::proofs::TornSites::torn_no_twin, crate::proofs::TornSites::torn_sites, crate::proofs::TornLines::torn_in_range))]
pub fn torn_sites_are_short()
    ensures whole { (site : SiteFields) (book : BookLine) (torn : List ℕ) → IsSayable site book →
        IsPrefix torn (site_text site book) → torn ≢ site_text site book → are_lines_whole 13 torn ≡ true → ⊥ }
    ensures twin { (site : SiteFields) (book : BookLine) (torn : List ℕ) (other : SiteFields × Option BookLine) →
        IsSayable site book → IsPrefix torn (site_text site book) → torn ≢ site_text site book →
        site_of_chain none_fewer torn ≡ Ok other → ⊥ }
    ensures refused { (site : SiteFields) (book : BookLine) (torn : List ℕ) (other : SiteFields × Option BookLine) →
        IsSayable site book → site.first_word ≤ site.last_word → IsPrefix torn (site_text site book) →
        torn ≢ site_text site book → site_of_chain is_first_site torn ≡ Ok other → ⊥ }
    ensures range { (site : SiteFields) (book : BookLine) (torn : List ℕ) → IsSayable site book →
        IsPrefix torn (site_text site book) → site_of_chain is_first_site torn ≡ Err (Range 12) → ⊥ }
{}
