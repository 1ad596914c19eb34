//! What the one call does for `air`: it sends what can be sent of any clear stream, and uses a site once.
ghost use Rattle.std.specs.Prelude.{◌≡◌, ◌≢◌, ◌⊎◌, ◌<◌, ◌^◌, List, [], ◌∷◌, true, false, codes, map, string_bytes};
ghost use Rattle.std.specs.Prelude.{None, Some, IsSome};
ghost use Rattle.std.specs.FinMap.{get};
ghost use Rattle.std.specs.List.{concat, list_any};
ghost use Rattle.sd_base.specs.Types.{Arrived, Bytes, FileName, Packets, LeafNumber};
ghost use Rattle.sd_ports.specs.Files.{Files};
ghost use Rattle.sd_spec.specs.Plan.{Plan};
ghost use Rattle.sd_spec.specs.Sent.{broadcast};
ghost use Rattle.sd_spec.specs.Counting.{is_marked};
ghost use Rattle.sd_law_losses.specs.Chosen.{chosen};
ghost use Rattle.sd_law_watch.specs.Steady.{are_steady};
ghost use Rattle.sd_command_base.specs.Made.{used_name};
ghost use Rattle.sd_command_base.specs.Outcome.{IsNoOutMade};
ghost use Rattle.sd_command_base.specs.Outside.{IoState, depot_state, io_state_at};
ghost use Rattle.sd_command_base.specs.Results.{RunResult};
ghost use Rattle.sd_run.specs.Meaning.{meaning};
ghost use Rattle.sd_law_run.specs.Aired.{AirResult, AreForAir, AreForUsedAir, LeavesOutFile};
ghost use Rattle.sd_law_run.specs.Headline.{Names, ReceiveResult, file_in, IsUndisturbed, card_file_for};
ghost use Rattle.sd_law_run.specs.Lost.{kept_items, LossResult};
ghost use Rattle.sd_law_run.specs.Outcome.{out_name, used_by};
ghost use Rattle.sd_law_run.specs.Sendable.{AreSendable};
ghost use Rattle.sd_law_run.specs.Watched.{WholeResult};

use sd_base::Steps;
use sd_command_base::Status;
use sd_command_line::CommandLine;
use sd_ports::{Depot, Sink};
use std::alloc::Global;
use std::sync::ledger::Ledger;

/// `sd_run::run` itself, and what follows for `air`.
///
/// No bytes of CLEAR end `air` before the input does, but for a packet for which no number or control word is left.
/// A site is used once: before OUT, `air` makes the mark of its site, a new empty file. With a mark that is there it
/// makes nothing.
pub fn air<D: Depot, P: Sink, N: Sink, L: Ledger>(
    alloc: Global,
    words: &[String],
    depot: &mut D,
    print: &mut P,
    notes: &mut N,
    steps: &mut Steps<L>,
) -> Status
    // Over a site that was not used, its own book and any clear stream it makes the mark, and the broadcast of the
    // packets that can be sent, with its closing message.
    ensures goes_on { (names : Names) (plan : Plan) (bytes : Bytes) →
        map string_bytes words.now ≡ codes "air" ∷ names.site ∷ names.book ∷ names.clear ∷ names.stream ∷ [] →
        names.stream ≢ names.site → names.stream ≢ names.book → names.stream ≢ names.clear →
        names.stream ≢ used_name names.site →
        AreForAir (io_state_at D.Depot P.Sink depot.old print.old steps.old) names plan bytes →
        IsUndisturbed (io_state_at D.Depot P.Sink depot.old print.old steps.old)
        (io_state_at D.Depot P.Sink depot.new print.new steps.new) result →
        AirResult names plan bytes
        (io_state_at D.Depot P.Sink depot.old print.old steps.old)
        (io_state_at D.Depot P.Sink depot.new print.new steps.new) result }
    // If the mark is there, nothing is made, and the answer isn't `Done`.
    ensures once { (files : Files) (mark : FileName) → D.files depot.old ≡ Some files →
        used_by (map string_bytes words.now) ≡ Some mark → IsSome (get files mark) →
        IsNoOutMade (depot_state D.Depot depot.old) (depot_state D.Depot depot.new) × (result ≢ Status.Done) }
    // If all else is as it is to be for `air`, the answer is that the site is used.
    ensures used { (names : Names) (plan : Plan) →
        map string_bytes words.now ≡ codes "air" ∷ names.site ∷ names.book ∷ names.clear ∷ names.stream ∷ [] →
        names.stream ≢ names.site → names.stream ≢ names.book → names.stream ≢ names.clear →
        names.stream ≢ used_name names.site →
        AreForUsedAir (io_state_at D.Depot P.Sink depot.old print.old steps.old) names plan →
        IsUndisturbed (io_state_at D.Depot P.Sink depot.old print.old steps.old)
        (io_state_at D.Depot P.Sink depot.new print.new steps.new) result →
        result ≡ Status.SiteUsed }
    // If OUT has changed, the mark is there, and empty.
    ensures marked_first { (files : Files) (mark out : FileName) → D.files depot.old ≡ Some files →
        used_by (map string_bytes words.now) ≡ Some mark → out_name (map string_bytes words.now) ≡ Some out →
        file_in (io_state_at D.Depot P.Sink depot.new print.new steps.new) out
        ≢ get files out →
        file_in (io_state_at D.Depot P.Sink depot.new print.new steps.new) mark ≡ Some [] }
    // The mark is as it was; or it was not there, and is empty.
    ensures mark { (files : Files) (mark : FileName) → D.files depot.old ≡ Some files →
        used_by (map string_bytes words.now) ≡ Some mark →
        (file_in (io_state_at D.Depot P.Sink depot.new print.new steps.new) mark
        ≡ get files mark)
        ⊎ ((get files mark ≡ None)
        × (file_in (io_state_at D.Depot P.Sink depot.new print.new steps.new) mark
        ≡ Some [])) }
    // Over the card of a leaf and a broadcast of packets that can be sent, `receive` makes what the leaf is entitled
    // to.
    ensures received { (names : Names) (plan : Plan) (u : LeafNumber) (clear : Packets) →
        map string_bytes words.now ≡ codes "receive" ∷ names.card ∷ names.stream ∷ names.out ∷ [] →
        names.out ≢ names.card → names.out ≢ names.stream →
        AreSendable plan clear → u < 2 ^ plan.site.height →
        file_in (io_state_at D.Depot P.Sink depot.old print.old steps.old) names.card
        ≡ Some (card_file_for plan.site u) →
        file_in (io_state_at D.Depot P.Sink depot.old print.old steps.old) names.stream
        ≡ Some (concat (broadcast plan clear)) →
        IsUndisturbed (io_state_at D.Depot P.Sink depot.old print.old steps.old)
        (io_state_at D.Depot P.Sink depot.new print.new steps.new) result →
        ReceiveResult names plan u clear
        (io_state_at D.Depot P.Sink depot.old print.old steps.old)
        (io_state_at D.Depot P.Sink depot.new print.new steps.new) result }
    // Over any choice of the packets of that broadcast it makes what the messages that arrived confirm.
    ensures lost { (names : Names) (plan : Plan) (u : LeafNumber) (clear : Packets) (flags : Arrived) →
        map string_bytes words.now ≡ codes "receive" ∷ names.card ∷ names.stream ∷ names.out ∷ [] →
        names.out ≢ names.card → names.out ≢ names.stream →
        AreSendable plan clear → u < 2 ^ plan.site.height →
        file_in (io_state_at D.Depot P.Sink depot.old print.old steps.old) names.card
        ≡ Some (card_file_for plan.site u) →
        file_in (io_state_at D.Depot P.Sink depot.old print.old steps.old) names.stream
        ≡ Some (concat (chosen flags (broadcast plan clear))) →
        IsUndisturbed (io_state_at D.Depot P.Sink depot.old print.old steps.old)
        (io_state_at D.Depot P.Sink depot.new print.new steps.new) result →
        LossResult names plan u clear (kept_items plan clear flags)
        (io_state_at D.Depot P.Sink depot.old print.old steps.old)
        (io_state_at D.Depot P.Sink depot.new print.new steps.new) result }
    // Over the whole broadcast, `watch` makes what the leaf is entitled to and prints one line, if the clear stream is
    // steady and no packet of it is marked.
    ensures watched { (names : Names) (plan : Plan) (u : LeafNumber) (clear : Packets) →
        map string_bytes words.now ≡ codes "watch" ∷ names.card ∷ names.stream ∷ names.out ∷ [] →
        names.out ≢ names.card → names.out ≢ names.stream →
        AreSendable plan clear → are_steady clear ≡ true → list_any is_marked clear ≡ false →
        u < 2 ^ plan.site.height →
        file_in (io_state_at D.Depot P.Sink depot.old print.old steps.old) names.card
        ≡ Some (card_file_for plan.site u) →
        file_in (io_state_at D.Depot P.Sink depot.old print.old steps.old) names.stream
        ≡ Some (concat (broadcast plan clear)) →
        IsUndisturbed (io_state_at D.Depot P.Sink depot.old print.old steps.old)
        (io_state_at D.Depot P.Sink depot.new print.new steps.new) result →
        WholeResult names plan u clear
        (io_state_at D.Depot P.Sink depot.old print.old steps.old)
        (io_state_at D.Depot P.Sink depot.new print.new steps.new) result }
{
    sd_run::run(alloc, &CommandLine::read(words), depot, print, notes, steps)
}

/// Of two runs of `air` with one SITE, one after the other, at most one changes its OUT. The second one may begin in a
/// file system that other runs have changed, if the mark is as the first one left it.
pub fn a_site_is_sent_once()
    ensures { (first second : List Bytes) (mark : FileName) (files later : Files) (a b c d : IoState)
        (one two : Status) → used_by first ≡ Some mark → used_by second ≡ Some mark → a.place.files ≡ Some files →
        c.place.files ≡ Some later → get later mark ≡ file_in b mark → RunResult (meaning first) a b one →
        RunResult (meaning second) c d two → LeavesOutFile first a b ⊎ LeavesOutFile second c d }
{}
