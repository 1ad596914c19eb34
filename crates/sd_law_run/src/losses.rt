//! Laws on what `receive` writes of a broadcast that loses packets.

ghost use Rattle.std.specs.Prelude.{◌≡◌, ◌<◌, ◌^◌, List, Some, Ok};
ghost use Rattle.std.specs.List.{concat};
ghost use Rattle.sd_base.specs.Types.{Bytes, Packets, Arrived, LeafNumber};
ghost use Rattle.sd_spec.specs.Plan.{Plan, IsPlan};
ghost use Rattle.sd_spec.specs.Refused.{IsSendable};
ghost use Rattle.sd_spec.specs.Sent.{broadcast};
ghost use Rattle.sd_law_broadcast.specs.Packets.{AreWholePackets};
ghost use Rattle.sd_law_broadcast.specs.Synced.{AreSynced};
ghost use Rattle.sd_law_losses.specs.Chosen.{chosen};
ghost use Rattle.sd_ports.specs.Files.{Files};
ghost use Rattle.sd_command_base.specs.Spec.{contents_of};
ghost use Rattle.sd_command_base.specs.Outside.{IoState};
ghost use Rattle.sd_command_base.specs.Work.{Work};
ghost use Rattle.sd_command_base.specs.Results.{RunResult};
ghost use Rattle.sd_command_base.specs.Shown.{word_at};
ghost use Rattle.sd_run_broadcasts.specs.Receive.{receive_meaning};
ghost use Rattle.sd_run.specs.Meaning.{meaning};
ghost use Rattle.sd_law_run.specs.Headline.{Names, file_in, AreGiven, IsUndisturbed, card_file_for};
ghost use Rattle.sd_law_run.specs.Lost.{kept_items, IsRestTo, IsConfirmed, LossResult};

use sd_command_base::Status;

/// Take any broadcast, of any site, book within the limits and clear packets that can be sent, and any choice of its
/// packets. `receive` with the card of a leaf writes exactly the clear packets that the messages which arrived confirm:
/// a part of what the leaf is entitled to, in its order. It refuses no packet, and its ending depends on what arrived
/// alone. If it ends as revoked in a period, the leaf is revoked in it. For each period of which a section that has the
/// leaf arrived it takes at most as many steps of the generator as the tree is high, and no others.
pub fn losses_are_received()
    // By what is meant, whatever happens to the run.
    ensures meant { (plan : Plan) (u : LeafNumber) (clear : Packets) (flags : Arrived) (words : List Bytes)
        (files : Files) → IsPlan plan → IsSendable plan.site clear → AreWholePackets clear → AreSynced clear →
        u < 2 ^ plan.site.height → (rest : IsRestTo plan u clear flags words (contents_of files)) →
        (work : Work) × ((meaning words (contents_of files)).result ≡ Ok work)
        × IsConfirmed plan u clear (kept_items plan clear flags) rest.out work }
    // By what a run leaves, if no I/O error occurs and memory suffices.
    ensures receive { (names : Names) (plan : Plan) (u : LeafNumber) (clear : Packets) (z a b : IoState)
        (flags : Arrived) (answer : Status) → AreGiven z names plan clear → u < 2 ^ plan.site.height →
        file_in a names.card ≡ Some (card_file_for plan.site u) →
        file_in a names.stream ≡ Some (concat (chosen flags (broadcast plan clear))) →
        RunResult (receive_meaning (word_at 1 names.card) (word_at 2 names.stream) (word_at 3 names.out)) a b answer →
        IsUndisturbed a b answer → LossResult names plan u clear (kept_items plan clear flags) a b answer }
{}
