//! What the one call does for `watch`: it goes on, whatever the stream is.
ghost use Rattle.std.specs.Prelude.{◌≡◌, ◌≢◌, ◌<◌, ◌^◌, [], ◌∷◌, true, false, codes, map, string_bytes, Some};
ghost use Rattle.std.specs.List.{concat, list_any};
ghost use Rattle.sd_base.specs.Types.{Bytes, Packets, LeafNumber};
ghost use Rattle.sd_site_cards.specs.CardFields.{CardFields, IsCard, card_bytes};
ghost use Rattle.sd_spec.specs.Plan.{Plan};
ghost use Rattle.sd_spec.specs.Sent.{broadcast};
ghost use Rattle.sd_spec.specs.Counting.{is_marked};
ghost use Rattle.sd_law_watch.specs.Steady.{are_steady};
ghost use Rattle.sd_command_base.specs.Outside.{IoState, io_state_at};
ghost use Rattle.sd_law_run.specs.Headline.{Names, file_in, AreGiven, IsUndisturbed, card_file_for};
ghost use Rattle.sd_law_run.specs.Watched.{WatchResult, WholeResult};

use sd_base::Steps;
use sd_command_base::Status;
use sd_command_line::CommandLine;
use sd_ports::{Depot, Sink};
use std::alloc::Global;
use std::sync::ledger::Ledger;

/// `sd_run::run` itself, and what follows for `watch`.
///
/// No bytes of a stream end `watch` before the input does, but for more packets, or more bytes in no packet, than are
/// read of a stream. Each line that it prints is the last one that it prints of the bytes before it.
pub fn watch<D: Depot, P: Sink, N: Sink, L: Ledger>(
    alloc: Global,
    words: &[String],
    depot: &mut D,
    print: &mut P,
    notes: &mut N,
    steps: &mut Steps<L>,
) -> Status
    // Over a card and any stream it makes what the card opens of the packets that count, and prints the reports.
    ensures goes_on { (names : Names) (card : CardFields) (bytes : Bytes) →
        map string_bytes words.now ≡ codes "watch" ∷ names.card ∷ names.stream ∷ names.out ∷ [] →
        names.out ≢ names.card → names.out ≢ names.stream → IsCard card →
        file_in (io_state_at D.Depot P.Sink depot.old print.old steps.old) names.card
        ≡ Some (card_bytes card) →
        file_in (io_state_at D.Depot P.Sink depot.old print.old steps.old) names.stream
        ≡ Some bytes →
        IsUndisturbed (io_state_at D.Depot P.Sink depot.old print.old steps.old)
        (io_state_at D.Depot P.Sink depot.new print.new steps.new) result →
        WatchResult names card bytes
        (io_state_at D.Depot P.Sink depot.old print.old steps.old)
        (io_state_at D.Depot P.Sink depot.new print.new steps.new) result }
    // Over the card of a leaf and the broadcast of a steady clear stream of which no packet is marked, it makes exactly
    // what the leaf is entitled to, and prints one line.
    ensures watched { (names : Names) (plan : Plan) (u : LeafNumber) (clear : Packets) (z : IoState) →
        map string_bytes words.now ≡ codes "watch" ∷ names.card ∷ names.stream ∷ names.out ∷ [] →
        names.out ≢ names.card → names.out ≢ names.stream →
        AreGiven z names plan clear → are_steady clear ≡ true → list_any is_marked clear ≡ false →
        u < 2 ^ plan.site.height →
        file_in (io_state_at D.Depot P.Sink depot.old print.old steps.old) names.card
        ≡ Some (card_file_for plan.site u) →
        file_in (io_state_at D.Depot P.Sink depot.old print.old steps.old) names.stream
        ≡ Some (concat (broadcast plan clear)) →
        IsUndisturbed (io_state_at D.Depot P.Sink depot.old print.old steps.old)
        (io_state_at D.Depot P.Sink depot.new print.new steps.new) result →
        WholeResult names plan u clear
        (io_state_at D.Depot P.Sink depot.old print.old steps.old)
        (io_state_at D.Depot P.Sink depot.new print.new steps.new) result }
{
    sd_run::run(alloc, &CommandLine::read(words), depot, print, notes, steps)
}
