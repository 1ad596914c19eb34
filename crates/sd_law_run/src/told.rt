//! What `status` and `show` tell: a card and a site are compared without a secret.

ghost use Rattle.std.specs.Prelude.{◌≡◌, ◌<◌, ◌≤◌, ◌^◌, List, Some, Ok};
ghost use Rattle.std.specs.FinMap.{get};
ghost use Rattle.sd_base.specs.Types.{Bytes, LeafNumber};
ghost use Rattle.sd_ports.specs.Files.{Files};
ghost use Rattle.sd_site_cards.specs.SiteFields.{SiteFields};
ghost use Rattle.sd_command_base.specs.Outside.{IoState};
ghost use Rattle.sd_command_base.specs.Results.{RunResult};
ghost use Rattle.sd_command_base.specs.Spec.{FileArgument, contents_of};
ghost use Rattle.sd_command_base.specs.Work.{work_of_text};
ghost use Rattle.sd_command_line.specs.Words.{ShowOf, order_of};
ghost use Rattle.sd_run.specs.Meaning.{meaning};
ghost use Rattle.sd_run_books.specs.Status.{status_text};
ghost use Rattle.sd_law_run.specs.Headline.{IsUndisturbed, card_file_for};
ghost use Rattle.sd_law_run.specs.Told.{IsGoodStatus, ShowResult, StatusResult, plan_asked};

use sd_command_base::Status;

/// `status SITE BOOK LEAF` over a good site, a good book and a leaf of its tree prints the fingerprint of the master
/// and the lines of the leaf.
#[tactic(auto, using(crate::proofs::Statuses::status_good))]
pub fn good_statuses_are_printed()
    ensures { (words : List Bytes) (files : Files) (good : IsGoodStatus words (contents_of files)) →
        (meaning words (contents_of files)).result
        ≡ Ok (work_of_text (status_text good.fields good.commands good.leaf.value)) }
{}

/// What `status` prints of a site, and `show` of the card of one of its leaves, if no I/O error occurs and memory
/// suffices: both print the fingerprint of the site's master. So whether a card is of a site is seen without a secret.
pub fn cards_are_compared_with_sites()
    // First the line of the fingerprint. Then a line for each period from which on the leaf is revoked, or isn't: the
    // periods ascend, and between two of them nothing changes.
    ensures status { (words : List Bytes) (files : Files) (good : IsGoodStatus words (contents_of files))
        (a b : IoState) (answer : Status) → a.place.files ≡ Some files → RunResult (meaning words) a b answer →
        IsUndisturbed a b answer → StatusResult (plan_asked good) good.leaf.value a b answer }
    // The card's line, with the same fingerprint.
    ensures show { (words : List Bytes) (card : FileArgument) (site : SiteFields) (u : LeafNumber) (files : Files)
        (a b : IoState) (answer : Status) → order_of words ≡ Ok (ShowOf card) → a.place.files ≡ Some files →
        site.ca < 2 ^ 16 → 1 ≤ site.height → site.height ≤ 20 → u < 2 ^ site.height →
        get files card.text ≡ Some (card_file_for site u) → RunResult (meaning words) a b answer →
        IsUndisturbed a b answer → ShowResult site u a b answer }
{}
