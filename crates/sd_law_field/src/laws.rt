//! Laws on what a field prints, in terms of the clear packets that are confirmed to its receivers.

ghost use Rattle.std.specs.Prelude.{◌≡◌, ◌^◌, ◌<◌, [], ℕ, false, List, Ok, None, Some, All, get_or, length};
ghost use Rattle.std.specs.Prelude.{slice_get, take};
ghost use Rattle.std.specs.List.Sorted.{IsStrictlyIncreasing};
ghost use Rattle.sd_base.specs.Types.{Bytes, Packets, LeafNumber, PacketNumber};
ghost use Rattle.sd_site_cards.specs.SiteFields.{SiteFields};
ghost use Rattle.sd_spec.specs.Plan.{period_of};
ghost use Rattle.sd_spec.specs.Refused.{IsClear};
ghost use Rattle.sd_law_losses.specs.Confirmed.{is_revoked_in, packets_at};
ghost use Rattle.sd_spec.specs.declared.event.Event.{Event};
ghost use Rattle.sd_spec.specs.Watch.{present};
ghost use Rattle.sd_field.specs.Fields.{FieldValue, IsSentOver, IsWrittenOver, field_card, plan_of_field};
ghost use Rattle.sd_field.specs.Fields.{field_clear_packets, watch_of};
ghost use Rattle.sd_spec.specs.Offered.{break_from};
ghost use Rattle.sd_run_broadcasts.specs.Field.{field_text};
ghost use Rattle.sd_law_field.specs.Fielded.{IsGoodField, IsWhole, confirmed_lines, confirmed_places};
ghost use Rattle.sd_law_field.specs.Fielded.{plan_for, sent_for, wrote_by, wrote_for};

/// Take a field within its limits, of which no clear packet that is sent is refused. It prints what was sent, and for
/// each leaf the number and the digest of the clear packets that are confirmed to it in all times that its receiver was
/// on. It prints nothing else.
#[tactic(auto, using(crate::proofs::Fielded::text_is_confirmed))]
pub fn good_fields_print_what_is_confirmed()
    ensures { (site : SiteFields) (clear : Packets) (events : List Event) → IsGoodField site clear events →
        field_text site clear events ≡ Ok (confirmed_lines site clear events (2 ^ site.height)) }
{}

/// The clear packets that are confirmed to a leaf are in the order in which they were sent, and of periods in which the
/// leaf isn't revoked.
#[tactic(auto, using(crate::proofs::Fielded::confirmed_rise, crate::proofs::Fielded::confirmed_sent, crate::proofs::Fielded::confirmed_entitled))]
pub fn confirmed_places_are_entitled()
    ensures rising { (site : SiteFields) (clear : Packets) (events : List Event) (u : LeafNumber) →
        IsGoodField site clear events → u < 2 ^ site.height →
        IsStrictlyIncreasing (confirmed_places site clear events u) }
    ensures sent { (site : SiteFields) (clear : Packets) (events : List Event) (u : LeafNumber) →
        IsGoodField site clear events → u < 2 ^ site.height →
        All (λ j. j < length (sent_for clear events)) (confirmed_places site clear events u) }
    ensures entitled { (site : SiteFields) (clear : Packets) (events : List Event) (u : LeafNumber) →
        IsGoodField site clear events → u < 2 ^ site.height →
        All (λ j. is_revoked_in (plan_for site clear events) u (period_of (plan_for site clear events) j) ≡ false)
        (confirmed_places site clear events u) }
{}

/// A field that prints its lines sent no clear packet that is refused.
#[tactic(auto, using(crate::proofs::Fielded::done_is_clear))]
pub fn done_fields_sent_clear_packets()
    ensures { (site : SiteFields) (clear : Packets) (events : List Event) (text : Bytes) →
        field_text site clear events ≡ Ok text → IsClear site (sent_for clear events) }
{}

/// Each packet that a receiver writes has a number, and is the clear packet of that number. So no two receivers ever
/// write different packets for one place: in whatever order commands, sends, deliveries, losses and power cuts come, at
/// whatever moments the two are looked at, and also if they stand in two fields with one clear stream. What is written
/// up to a moment is the same by the book of the events up to then and by that of all events.
pub fn no_two_receivers_differ()
    ensures numbered { (site : SiteFields) (clear : Packets) (events : List Event) (u : LeafNumber) →
        IsGoodField site clear events → u < 2 ^ site.height →
        length (wrote_for site clear events u) ≡ length (confirmed_places site clear events u) }
    ensures clear { (site : SiteFields) (clear : Packets) (events : List Event) (u : LeafNumber) (i : ℕ)
        (j : PacketNumber) → IsGoodField site clear events → u < 2 ^ site.height →
        slice_get (confirmed_places site clear events u) i ≡ Some j →
        slice_get (wrote_for site clear events u) i ≡ Some (get_or clear j []) }
    ensures moments { (site : SiteFields) (clear : Packets) (events : List Event) (n : ℕ) →
        IsGoodField site clear events → IsGoodField site clear (take n events) }
    ensures book { (site : SiteFields) (clear : Packets) (events : List Event) (u : LeafNumber) (n : ℕ) →
        IsGoodField site clear events → wrote_by (plan_for site clear events) clear (take n events) u
        ≡ wrote_for site clear (take n events) u }
    ensures same { (site other : SiteFields) (clear : Packets) (events more : List Event) (u v : LeafNumber) (i k : ℕ)
        (j : PacketNumber) → IsGoodField site clear events → IsGoodField other clear more → u < 2 ^ site.height →
        v < 2 ^ other.height → slice_get (confirmed_places site clear events u) i ≡ Some j →
        slice_get (confirmed_places other clear more v) k ≡ Some j →
        slice_get (wrote_for site clear events u) i ≡ slice_get (wrote_for other clear more v) k }
{}

/// In whatever order commands, sends, deliveries, losses and power cuts come: what the receivers of a leaf write are
/// the
/// clear packets that are confirmed to it, all of them and nothing else. By `confirmed_places_are_entitled` these were
/// sent, are written each once and in the order of the stream, and are of periods in which the leaf isn't revoked.
pub fn receivers_write_clear_packets()
    ensures { (site : SiteFields) (clear : Packets) (events : List Event) (u : LeafNumber) →
        IsGoodField site clear events → u < 2 ^ site.height →
        wrote_for site clear events u ≡ packets_at clear (confirmed_places site clear events u) }
{}

/// Over whole packets no receiver of a field ever refuses one, and no write ever passes the room that a field takes.
#[tactic(auto, using(crate::proofs::Never::never_refuses, crate::proofs::Never::never_written_over, crate::proofs::Never::never_sent_over))]
pub fn fields_never_run_over()
    ensures refusal { (v : FieldValue) (u : LeafNumber) → IsWhole v → u < 2 ^ v.site.height →
        break_from (field_card v u) [] (present (plan_of_field v) (field_clear_packets v) (watch_of u v)) ≡ None }
    ensures written { (v : FieldValue) (u : LeafNumber) → IsWhole v → u < 2 ^ v.site.height → ¬ IsWrittenOver u v }
    ensures sent { (v : FieldValue) → IsWhole v → ¬ IsSentOver v }
{}
