ghost use Rattle.std.specs.Prelude.{◌<◌, ◌++◌, ◌∷◌, [], ℕ, List, length, OnOk, IsErr};
ghost use Rattle.std.specs.List.{concat};
ghost use Rattle.sd_site_cards.specs.CardFields.{CardFields};
ghost use Rattle.sd_spec.specs.Offered.{out_from};
ghost use Rattle.sd_receive.specs.Receiving.{IsCountable, MayReceive};
ghost use Rattle.sd_field.specs.Heard.{HasStoreRoom, IsHeard};

use sd_base::{NoMemory, Steps};
use sd_engine::{Stage, StageFault};
use sd_packet::Packet;
use sd_ports::MemSink;
use sd_receive::Receiver;
use std::sync::ledger::Ledger;

/// Offers a packet to a receiver, which writes into a sink in memory. If the receiver refuses it, that is no error:
/// nothing is written from then on.
pub fn hear<L: Ledger>(
    receiver: &mut Receiver,
    packet: &Packet,
    written: &mut MemSink,
    steps: &mut Steps<L>,
) -> Result<(), NoMemory>
    requires live { MayReceive receiver.old }
    ensures heard { (card : CardFields) (earlier : List ℕ) (xs : List (List ℕ)) → IsCountable xs →
        IsHeard card earlier xs receiver.old written.old.held →
        OnOk result (IsHeard card earlier (xs ++ packet.now ∷ []) receiver.new written.new.held) }
    ensures room { (total : ℕ) → HasStoreRoom total written.old → OnOk result (HasStoreRoom total written.new) }
    ensures full { (card : CardFields) (earlier : List ℕ) (xs : List (List ℕ)) (total : ℕ) → IsErr result →
        IsCountable xs → IsHeard card earlier xs receiver.old written.old.held → HasStoreRoom total written.old →
        total < length (earlier ++ concat (out_from card [] (xs ++ packet.now ∷ []))) }
{
    match receiver.offer(packet, written, steps) {
        Ok(()) => Ok(()),
        Err(StageFault::Refused(_)) => Ok(()),
        Err(StageFault::Write) => Err(NoMemory),
    }
}
