//! A folder with a chain of sites, and what a run leaves of it.

ghost use Rattle.std.specs.Prelude.{◌≡◌, ◌≢◌, ℕ, ◌+◌, ◌≤◌, true, List, [], ◌∷◌, ◌++◌, length, Option, Some, None, Ok};
ghost use Rattle.std.specs.Prelude.{Err};
ghost use Rattle.std.specs.FinMap.{get, remove};
ghost use Rattle.sd_base.specs.Types.{Bytes, FileName};
ghost use Rattle.sd_base.specs.Number.{decimal_value};
ghost use Rattle.sd_ports.specs.Files.{Files};
ghost use Rattle.sd_site_cards.specs.SiteFields.{SiteFields};
ghost use Rattle.sd_site_cards.specs.Written.{is_first_site, site_of_chain};
ghost use Rattle.sd_site_cards.specs.declared.site_fault.SiteFault.{SiteFault};
ghost use Rattle.sd_site_cards.specs.declared.site_fault.SiteFault.TheVariants.{Range};
ghost use Rattle.sd_command_base.specs.declared.status.Status.{Status};
ghost use Rattle.sd_command_base.specs.declared.status.Status.TheVariants.{BadSite, Done};
ghost use Rattle.sd_command_base.specs.declared.bad_line.Excerpt.{Excerpt};
ghost use Rattle.sd_command_base.specs.Files.{refused_site};
ghost use Rattle.sd_command_base.specs.Outside.{IoState};
ghost use Rattle.sd_command_base.specs.Results.{RunResult};
ghost use Rattle.sd_command_base.specs.Spec.{FileArgument, contents_of};
ghost use Rattle.sd_command_base.specs.Shown.{NumberArgument};
ghost use Rattle.sd_command_line.specs.Words.{NextOf, TwinOf, order_of};
ghost use Rattle.sd_run.specs.Meaning.{meaning};
ghost use Rattle.sd_run_books.specs.SiteNames.{digits_in, follows};
ghost use Rattle.sd_law_chain.specs.Chain.{Call, Link, Next, Twin};
ghost use Rattle.sd_law_run.specs.Folders.{FolderOutcome, HasName, HoldsChain, IsFolder, IsTorn, SparesNames};
ghost use Rattle.sd_law_run.specs.Folders.{site_name_at};
ghost use Rattle.sd_law_run.specs.Folders.{last_number_in};

/// A run leaves of a folder with a chain of sites the same chain, or the chain with one site more, or the chain and
/// above it a torn site, which is a proper prefix of the next site's file. A run that is done leaves no torn site.
/// `OUT` of another command than `next` and `twin` must have none of the chain's names. It is proved for files that the
/// model knows.
pub fn folders_keep_the_chain()
    ensures kept { (words : List Bytes) (files : Files) (name : FileName) (root : Link) (calls : List Call)
        (a b : IoState) (answer : Status) → a.place.files ≡ Some files → IsFolder files name root calls →
        SparesNames name words → RunResult (meaning words) a b answer →
        (now : Files) × (b.place.files ≡ Some now) × FolderOutcome words answer files now name root calls }
    // After `next` that is done, if OUT has one of the chain's names, the chain has the call with BOOK more.
    ensures next { (words : List Bytes) (files : Files) (name : FileName) (root : Link) (calls : List Call) (i : ℕ)
        (a b : IoState) (site book : FileArgument) (count : NumberArgument) (out : FileArgument) →
        a.place.files ≡ Some files → IsFolder files name root calls → order_of words ≡ Ok (NextOf site book count out) →
        HasName name i → out.text ≡ site_name_at name i → RunResult (meaning words) a b Done →
        (bytes : Bytes) × (get files book.text ≡ Some bytes)
        × ((now : Files) × (b.place.files ≡ Some now) × IsFolder now name root (calls ++ Next bytes count.value ∷ [])) }
    // So it is after `twin`.
    ensures twin { (words : List Bytes) (files : Files) (name : FileName) (root : Link) (calls : List Call) (i : ℕ)
        (a b : IoState) (site : FileArgument) (count : NumberArgument) (out : FileArgument) →
        a.place.files ≡ Some files → IsFolder files name root calls → order_of words ≡ Ok (TwinOf site count out) →
        HasName name i → out.text ≡ site_name_at name i → RunResult (meaning words) a b Done →
        (now : Files) × (b.place.files ≡ Some now) × IsFolder now name root (calls ++ Twin count.value ∷ []) }
    // Above a torn site no run makes one.
    ensures torn { (words : List Bytes) (files : Files) (name : FileName) (root : Link) (calls : List Call)
        (a b : IoState) (answer : Status) → a.place.files ≡ Some files → IsTorn files name root calls →
        SparesNames name words → RunResult (meaning words) a b answer →
        (now : Files) × (b.place.files ≡ Some now) × IsTorn now name root calls }
{}

/// `next` tells a torn site from the others by exit 6. It refuses the torn one with it, and not for line 12, if OUT's
/// name follows. Of the sites of the chain it refuses none with exit 6, but for line 12. Once the torn site is removed,
/// the folder has the chain alone.
#[tactic(auto, using(crate::proofs::FolderRefusals::torn_removed))]
pub fn torn_sites_are_told()
    ensures refused { (words : List Bytes) (files : Files) (name : FileName) (root : Link) (calls : List Call)
        (site book : FileArgument) (count : NumberArgument) (out : FileArgument) → (is : IsTorn files name root calls) →
        order_of words ≡ Ok (NextOf site book count out) → site.text ≡ site_name_at name (length calls + 1) →
        follows site.text out.text ≡ true →
        (fault : SiteFault) × (fault ≢ Range 12)
        × ((meaning words (contents_of files)).result ≡ Err (refused_site site.number is.torn fault)) }
    ensures good { (words : List Bytes) (files : Files) (name : FileName) (root : Link) (calls : List Call)
        (above : Option Bytes) (i : ℕ) (site book : FileArgument) (count : NumberArgument) (out : FileArgument)
        (word : ℕ) (fault : SiteFault) (text : Excerpt) → HoldsChain files name root calls above → i ≤ length calls →
        order_of words ≡ Ok (NextOf site book count out) → site.text ≡ site_name_at name i →
        (meaning words (contents_of files)).result ≡ Err (BadSite word fault text) → fault ≡ Range 12 }
    ensures removed { (files : Files) (name : FileName) (root : Link) (calls : List Call) →
        IsTorn files name root calls → IsFolder (remove files (site_name_at name (length calls + 1))) name root calls }
{}

/// A folder with a first site without a book, and no file that has a later name, is a folder with a chain.
pub fn folders_begin()
    ensures { (files : Files) (name : FileName) (bytes : Bytes) (site : SiteFields) →
        decimal_value (digits_in name) ≡ Some (last_number_in name) → HasName name 0 → get files name ≡ Some bytes →
        site_of_chain is_first_site bytes ≡ Ok (site, None) →
        ((i : ℕ) → 1 ≤ i → HasName name i → get files (site_name_at name i) ≡ None) →
        IsFolder files name (record { site = site; book = [] }) [] }
{}
