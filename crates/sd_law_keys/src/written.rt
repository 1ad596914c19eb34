//! What a receiver writes of any stream.

ghost use Rattle.std.specs.Prelude.{◌≢◌, [], Contains, reverse};
ghost use Rattle.sd_base.specs.Types.{Key, Packet, Packets};
ghost use Rattle.sd_tree_keys.specs.Keys.{check_value_of};
ghost use Rattle.sd_site_cards.specs.CardFields.{CardFields};
ghost use Rattle.sd_cipher.specs.Wrapping.{wrapped as under};
ghost use Rattle.sd_message.specs.EcmParts.{Message};
ghost use Rattle.sd_spec.specs.Offered.{out_from};
ghost use Rattle.sd_law_keys.specs.Written.{CameClear, IsKeyIn, IsMessageIn, IsWrittenOf};

/// Of any stream, each packet that is written came with control 00, or is a packet of the stream descrambled under a
/// word with the check value that its message names, at a position that two messages frame. So a card by whose keys no
/// word has the check value that its message names writes packets that came with control 00 alone.
pub fn written_packets_are_named()
    ensures each { (card : CardFields) (packets : Packets) (out : Packet) → Contains (out_from card [] packets) out →
        IsWrittenOf card (reverse packets) out }
    ensures strangers { (card : CardFields) (packets : Packets) (out : Packet) →
        ((a : Message) (key : Key) → IsMessageIn card (reverse packets) a →
        IsKeyIn card (reverse packets) a.period key → check_value_of (under key a.word a.wrapped) ≢ a.check) →
        Contains (out_from card [] packets) out →
        CameClear card (reverse packets) out }
{}
