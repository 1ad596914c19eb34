//! Laws on what a receiver writes.

ghost use Rattle.std.specs.Prelude.{◌≡◌, ◌++◌, ◌∷◌, None};
ghost use Rattle.sd_base.specs.Types.{Packet, Packets};
ghost use Rattle.sd_site_cards.specs.CardFields.{CardFields};
ghost use Rattle.sd_spec.specs.Offered.{offered, out_from};

/// Of packets of which the first isn't refused, what is written is what the first makes the receiver write, and then
/// what is written of the others after it.
pub fn one_packet_more()
    ensures { (card : CardFields) (past : Packets) (packet : Packet) (packets : Packets)
        → (offered card past packet).fault ≡ None →
        out_from card past (packet ∷ packets) ≡ (offered card past packet).wrote ++ out_from card (packet ∷ past)
        packets }
{}
