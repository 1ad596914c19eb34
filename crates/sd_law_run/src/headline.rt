//! The headline: the one call, and what its clauses say of `head`, `card` and `receive`.
ghost use Rattle.std.specs.Prelude.{◌≡◌, ◌≢◌, ◌⊎◌, ◌<◌, ◌^◌, List, [], ◌∷◌, codes, Some};
ghost use Rattle.std.specs.Prelude.{Ok, map, string_bytes};
ghost use Rattle.std.specs.FinMap.{get};
ghost use Rattle.std.specs.Io.KnownBytes.{Appends};
ghost use Rattle.sd_command_base.specs.Outcome.{IsNoOutMade};
ghost use Rattle.sd_command_base.specs.Texts.{line_of_status};
ghost use Rattle.sd_ports.specs.Files.{Files};
ghost use Rattle.sd_command_base.specs.Spec.{FileArgument, contents_of};
ghost use Rattle.sd_command_line.specs.Words.{HeadOf, order_of};
ghost use Rattle.sd_law_run.specs.Sent.{IsSent};
ghost use Rattle.sd_base.specs.Number.{decimal_value};
ghost use Rattle.sd_site_cards.specs.SiteFields.{SiteFields};
ghost use Rattle.sd_spec.specs.Plan.{Plan};
ghost use Rattle.sd_spec.specs.Sent.{broadcast};
ghost use Rattle.sd_law_losses.specs.Chosen.{chosen};
ghost use Rattle.std.specs.List.{concat};
ghost use Rattle.sd_base.specs.Types.{Bytes, FileName, Packets, Arrived, LeafNumber};
ghost use Rattle.sd_command_base.specs.Outside.{IoState, page_state, depot_state, io_state_at};
ghost use Rattle.sd_command_base.specs.Results.{RunResult};
ghost use Rattle.sd_command_base.specs.Shown.{word_at};
ghost use Rattle.sd_run_books.specs.Card.{card_meaning};
ghost use Rattle.sd_run_broadcasts.specs.Head.{head_meaning};
ghost use Rattle.sd_run_broadcasts.specs.Receive.{receive_meaning};
ghost use Rattle.sd_run.specs.Meaning.{meaning};
ghost use Rattle.sd_law_run.specs.Good.{IsGoodSite};
ghost use Rattle.sd_law_run.specs.Lost.{kept_items, LossResult};
ghost use Rattle.sd_run.specs.Refusals.{RefusesFirst};
ghost use Rattle.sd_law_run.specs.Outcome.{FilesMade, IsDone, IsMarkedAlone, out_name, used_by};
ghost use Rattle.sd_law_run.specs.Headline.{Names, head_run, card_run, receive_run, file_in, AreGiven, IsUndisturbed};
ghost use Rattle.sd_law_run.specs.Headline.{card_file_for, HeadResult, CardResult, ReceiveResult};

use sd_base::Steps;
use sd_command_base::Status;
use sd_command_line::CommandLine;
use sd_ports::{Depot, Sink};
use std::alloc::Global;
use std::sync::ledger::Ledger;

/// `sd_run::run` itself, and what follows for a caller who reads these clauses alone.
///
/// For every book and every clear stream within limits, each period of the broadcast names disjoint sets that unite to
/// exactly its unrevoked receivers. It is one set if none is revoked, and at most 2r - 1 sets if r > 0 are. Each
/// unrevoked receiver writes that period's clear packets, by at most log2 n steps of the generator. Each revoked
/// receiver is refused by name, and no label of a named set is derivable from its own. This is symbolic: it speaks of
/// names of labels and not of their bytes.
///
/// Each clause is of one run, which may begin anywhere: what it needs of another run is a file. So the three runs may
/// be of three processes or machines, and of as many receivers as there are leaves.
pub fn run<D: Depot, P: Sink, N: Sink, L: Ledger>(
    alloc: Global,
    words: &[String],
    depot: &mut D,
    print: &mut P,
    notes: &mut N,
    steps: &mut Steps<L>,
) -> Status
    // Over a good site, book and clear stream `head` makes the broadcast, whose periods name their covers.
    ensures head { (names : Names) (plan : Plan) (clear : Packets) →
        map string_bytes words.now
        ≡ codes "head" ∷ names.site ∷ names.book ∷ names.clear ∷ names.stream ∷ [] →
        names.stream ≢ names.site → names.stream ≢ names.book → names.stream ≢ names.clear →
        AreGiven (io_state_at D.Depot P.Sink depot.old print.old steps.old) names plan clear →
        IsUndisturbed (io_state_at D.Depot P.Sink depot.old print.old steps.old)
        (io_state_at D.Depot P.Sink depot.new print.new steps.new) result →
        HeadResult names plan clear (io_state_at D.Depot P.Sink depot.old print.old steps.old)
        (io_state_at D.Depot P.Sink depot.new print.new steps.new) result }
    // Over a good site `card` makes the leaf's card.
    ensures card { (names : Names) (leaf : Bytes) (site : SiteFields) (u : LeafNumber) →
        map string_bytes words.now ≡ codes "card" ∷ names.site ∷ leaf ∷ names.card ∷ [] →
        decimal_value leaf ≡ Some u → names.card ≢ names.site →
        IsGoodSite (file_in (io_state_at D.Depot P.Sink depot.old print.old steps.old)
        names.site) site →
        u < 2 ^ site.height →
        IsUndisturbed (io_state_at D.Depot P.Sink depot.old print.old steps.old)
        (io_state_at D.Depot P.Sink depot.new print.new steps.new) result →
        CardResult names site u (io_state_at D.Depot P.Sink depot.old print.old steps.old)
        (io_state_at D.Depot P.Sink depot.new print.new steps.new) result }
    // Over the card of a leaf and a broadcast, wherever they were made, `receive` makes what the leaf is entitled to.
    ensures receive { (names : Names) (plan : Plan) (u : LeafNumber) (clear : Packets) (z : IoState) →
        map string_bytes words.now ≡ codes "receive" ∷ names.card ∷ names.stream ∷ names.out ∷ [] →
        names.out ≢ names.card → names.out ≢ names.stream →
        AreGiven z names plan clear → u < 2 ^ plan.site.height →
        file_in (io_state_at D.Depot P.Sink depot.old print.old steps.old) names.card
        ≡ Some (card_file_for plan.site u) →
        file_in (io_state_at D.Depot P.Sink depot.old print.old steps.old) names.stream
        ≡ Some (concat (broadcast plan clear)) →
        IsUndisturbed (io_state_at D.Depot P.Sink depot.old print.old steps.old)
        (io_state_at D.Depot P.Sink depot.new print.new steps.new) result →
        ReceiveResult names plan u clear
        (io_state_at D.Depot P.Sink depot.old print.old steps.old)
        (io_state_at D.Depot P.Sink depot.new print.new steps.new) result }
    // Over the card of a leaf and any choice of a broadcast's packets it makes what the messages that arrived confirm.
    ensures lost { (names : Names) (plan : Plan) (u : LeafNumber) (clear : Packets) (z : IoState) (flags : Arrived) →
        map string_bytes words.now ≡ codes "receive" ∷ names.card ∷ names.stream ∷ names.out ∷ [] →
        names.out ≢ names.card → names.out ≢ names.stream →
        AreGiven z names plan clear → u < 2 ^ plan.site.height →
        file_in (io_state_at D.Depot P.Sink depot.old print.old steps.old) names.card
        ≡ Some (card_file_for plan.site u) →
        file_in (io_state_at D.Depot P.Sink depot.old print.old steps.old) names.stream
        ≡ Some (concat (chosen flags (broadcast plan clear))) →
        IsUndisturbed (io_state_at D.Depot P.Sink depot.old print.old steps.old)
        (io_state_at D.Depot P.Sink depot.new print.new steps.new) result →
        LossResult names plan u clear (kept_items plan clear flags)
        (io_state_at D.Depot P.Sink depot.old print.old steps.old)
        (io_state_at D.Depot P.Sink depot.new print.new steps.new) result }
    // No file changes but OUT, which is the word at its place in the row of a command that makes a file, and of `air`
    // the mark of its site.
    ensures files { (files : Files) (name : FileName) → D.files depot.old ≡ Some files →
        out_name (map string_bytes words.now) ≢ Some name → used_by (map string_bytes words.now) ≢ Some name →
        file_in (io_state_at D.Depot P.Sink depot.new print.new steps.new) name
        ≡ get files name }
    // At most one file is made, and none by a command that makes none; of `air` the mark too.
    ensures made { FilesMade (map string_bytes words.now)
        (io_state_at D.Depot P.Sink depot.old print.old steps.old)
        (io_state_at D.Depot P.Sink depot.new print.new steps.new) }
    // `Done` is answered only if the work that is meant was done.
    ensures done { (files : Files) → D.files depot.old ≡ Some files → result ≡ Status.Done →
        IsDone (meaning (map string_bytes words.now) (contents_of files)).result
        (io_state_at D.Depot P.Sink depot.old print.old steps.old)
        (io_state_at D.Depot P.Sink depot.new print.new steps.new) }
    // A refusal of arguments or files has printed its line alone, and made no file; but of `air`, if there is no folder
    // for OUT, the mark.
    ensures refused { RefusesFirst result → (IsNoOutMade (depot_state D.Depot depot.old) (depot_state D.Depot depot.new)
        ⊎ IsMarkedAlone (map string_bytes words.now) (depot_state D.Depot depot.old) (depot_state D.Depot depot.new)
        result) × Appends (page_state P.Sink print.old).printed (page_state P.Sink print.new).printed
        (line_of_status result) }
{
    sd_run::run(alloc, &CommandLine::read(words), depot, print, notes, steps)
}

/// What `run` gives for `head`, `card` and `receive` follows from the specification of each command: whatever meets the
/// clause of `run` meets this too.
pub fn exactly_the_unrevoked_receive()
    ensures head { (names : Names) (plan : Plan) (clear : Packets) (a b : IoState) (answer : Status) →
        AreGiven a names plan clear → RunResult (head_meaning (word_at 1 names.site) (word_at 2 names.book)
        (word_at 3 names.clear) (word_at 4 names.stream)) a b answer → IsUndisturbed a b answer →
        HeadResult names plan clear a b answer }
    ensures card { (names : Names) (site : SiteFields) (u : LeafNumber) (a b : IoState) (answer : Status) →
        IsGoodSite (file_in a names.site) site → u < 2 ^ site.height → RunResult (card_meaning (word_at 1 names.site)
        (record { word = 2; value = u }) (word_at 3 names.card)) a b answer → IsUndisturbed a b answer →
        CardResult names site u a b answer }
    ensures receive { (names : Names) (plan : Plan) (u : LeafNumber) (clear : Packets) (z a b : IoState)
        (answer : Status) → AreGiven z names plan clear → u < 2 ^ plan.site.height →
        file_in a names.card ≡ Some (card_file_for plan.site u) →
        file_in a names.stream ≡ Some (concat (broadcast plan clear)) →
        RunResult (receive_meaning (word_at 1 names.card) (word_at 2 names.stream) (word_at 3 names.out)) a b answer →
        IsUndisturbed a b answer → ReceiveResult names plan u clear a b answer }
{}

/// A run with the arguments of `head`, `card` or `receive` is a run of the command, if the file that it makes is none
/// that it reads.
pub fn words_are_their_commands()
    ensures head { (names : Names) (a b : IoState) (answer : Status) → names.stream ≢ names.site →
        names.stream ≢ names.book → names.stream ≢ names.clear → RunResult (meaning (head_run names)) a b answer →
        RunResult (head_meaning (word_at 1 names.site) (word_at 2 names.book) (word_at 3 names.clear)
        (word_at 4 names.stream)) a b answer }
    ensures card { (names : Names) (leaf : Bytes) (u : LeafNumber) (a b : IoState) (answer : Status) →
        names.card ≢ names.site → decimal_value leaf ≡ Some u → u < 2 ^ 32 →
        RunResult (meaning (card_run names leaf)) a b answer → RunResult (card_meaning (word_at 1 names.site)
        (record { word = 2; value = u }) (word_at 3 names.card)) a b answer }
    ensures receive { (names : Names) (a b : IoState) (answer : Status) → names.out ≢ names.card →
        names.out ≢ names.stream → RunResult (meaning (receive_run names)) a b answer →
        RunResult (receive_meaning (word_at 1 names.card) (word_at 2 names.stream) (word_at 3 names.out)) a b answer }
{}

/// If `head` succeeds in a file system whose contents the model knows, OUT has the broadcast of the site, book and
/// clear stream that the files say. Each period of it names its cover: disjoint sets that unite to exactly its
/// unrevoked receivers, one if none is revoked and at most 2r - 1 if r > 0 are.
#[tactic(auto, using(crate::proofs::Sent::head_done))]
pub fn done_heads_name_their_covers()
    ensures { (words : List Bytes) (site book clear out : FileArgument) (files : Files) (a b : IoState) →
        order_of words ≡ Ok (HeadOf site book clear out) → a.place.files ≡ Some files →
        RunResult (meaning words) a b Status.Done → IsSent site book clear out files b }
{}
