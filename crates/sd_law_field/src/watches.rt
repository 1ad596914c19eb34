//! What the receivers of a field are offered, and what they write. Events are listed with the newest first.

ghost use Rattle.std.specs.Prelude.{◌≡◌, ◌≢◌, ◌<◌, ◌≤◌, ◌++◌, ◌∷◌, [], ℕ, true, false, List, Some, None, All};
ghost use Rattle.std.specs.Prelude.{get_or, length, reverse, take};
ghost use Rattle.std.specs.List.{concat};
ghost use Rattle.std.specs.List.Sorted.{IsStrictlyIncreasing};
ghost use Rattle.sd_base.specs.Types.{Packets, LeafNumber};
ghost use Rattle.sd_site_cards.specs.SiteFields.{SiteFields, AreInRange};
ghost use Rattle.sd_site_cards.specs.CardFields.{CardFields};
ghost use Rattle.sd_spec.specs.Plan.{Plan};
ghost use Rattle.sd_message.specs.declared.stream_fault.StreamFault.{StreamFault};
ghost use Rattle.sd_spec.specs.Offered.{offered, break_from};
ghost use Rattle.sd_spec.specs.declared.event.Event.{Event};
ghost use Rattle.sd_spec.specs.declared.event.Event.TheVariants.{Offer, Lose, Off, On};
ghost use Rattle.sd_spec.specs.Book.{sends, plan_after};
ghost use Rattle.sd_spec.specs.Watch.{Watch, watch_after_event, stream, count_sent, watch, times, present, written};
ghost use Rattle.sd_law_field.specs.Times.{confirmed_to_leaf, clear_sent_in};

/// A receiver has passed no more packets than were sent. It was offered packets that it has passed, each at most once
/// and in the order in which they were sent, in all times that it was on together.
#[tactic(auto, using(sd_spec::proofs::Watching::cursor_within, sd_spec::proofs::Watching::times_below, sd_spec::proofs::Watching::times_rise))]
pub fn watches_rise()
    ensures passed { (plan : Plan) (clear : Packets) (u : LeafNumber) (past : List Event) →
        (watch plan clear u past).cursor ≤ count_sent plan clear (sends (length clear) past) }
    ensures offered { (plan : Plan) (clear : Packets) (u : LeafNumber) (past : List Event) →
        All (λ i. i < (watch plan clear u past).cursor) (concat (times (watch plan clear u past))) }
    ensures rise { (plan : Plan) (clear : Packets) (u : LeafNumber) (past : List Event) →
        IsStrictlyIncreasing (concat (times (watch plan clear u past))) }
{}

/// What a receiver was offered, and what it wrote, stays if more clear packets are sent.
pub fn sends_change_nothing()
    ensures present { (plan : Plan) (clear : Packets) (u : LeafNumber) (past : List Event) (k : ℕ) →
        sends (length clear) past ≤ k → present plan (take k clear) (watch plan clear u past)
        ≡ present plan (take (sends (length clear) past) clear) (watch plan clear u past) }
    ensures written { (plan : Plan) (card : CardFields) (clear : Packets) (u : LeafNumber) (past : List Event) (k : ℕ) →
        sends (length clear) past ≤ k → written plan card (take k clear) (watch plan clear u past)
        ≡ written plan card (take (sends (length clear) past) clear) (watch plan clear u past) }
{}

/// A receiver that is on is offered the next packet that was sent, and writes what this packet makes it write. If it
/// has refused a packet since it was switched on, it writes nothing more.
pub fn offers_are_heard()
    ensures present { (plan : Plan) (clear : Packets) (u : LeafNumber) (n : ℕ) (w : Watch) → w.on ≡ true →
        w.cursor < n →
        present plan clear (watch_after_event u n (Offer u) w)
        ≡ present plan clear w ++ get_or (stream plan clear) w.cursor [] ∷ [] }
    ensures written { (plan : Plan) (card : CardFields) (clear : Packets) (u : LeafNumber) (n : ℕ) (w : Watch) →
        w.on ≡ true →
        w.cursor < n → break_from card [] (present plan clear w) ≡ None →
        written plan card clear (watch_after_event u n (Offer u) w) ≡ written plan card clear w
        ++ (offered card (reverse (present plan clear w)) (get_or (stream plan clear) w.cursor [])).wrote }
    ensures refused { (plan : Plan) (card : CardFields) (clear : Packets) (u : LeafNumber) (n : ℕ) (w : Watch)
        (why : StreamFault) → w.on ≡ true → w.cursor < n → break_from card [] (present plan clear w) ≡ Some why →
        written plan card clear (watch_after_event u n (Offer u) w) ≡ written plan card clear w }
{}

/// A receiver is offered nothing, and writes nothing, when a packet is lost, when it is switched off, and at an offer
/// while it is off. An event of another leaf changes nothing of it.
pub fn other_events_write_nothing()
    ensures lost { (plan : Plan) (card : CardFields) (clear : Packets) (u : LeafNumber) (n : ℕ) (v : LeafNumber)
        (w : Watch) →
        (present plan clear (watch_after_event u n (Lose v) w) ≡ present plan clear w)
        × (written plan card clear (watch_after_event u n (Lose v) w) ≡ written plan card clear w) }
    ensures off { (plan : Plan) (card : CardFields) (clear : Packets) (u : LeafNumber) (n : ℕ) (v : LeafNumber)
        (w : Watch) →
        (present plan clear (watch_after_event u n (Off v) w) ≡ present plan clear w)
        × (written plan card clear (watch_after_event u n (Off v) w) ≡ written plan card clear w) }
    ensures unheard { (plan : Plan) (card : CardFields) (clear : Packets) (u : LeafNumber) (n : ℕ) (v : LeafNumber)
        (w : Watch) →
        w.on ≡ false → (present plan clear (watch_after_event u n (Offer v) w) ≡ present plan clear w)
        × (written plan card clear (watch_after_event u n (Offer v) w) ≡ written plan card clear w) }
    ensures others { (u : LeafNumber) (n : ℕ) (v : LeafNumber) (w : Watch) → v ≢ u →
        (watch_after_event u n (Offer v) w ≡ w) ×
        (watch_after_event u n (Lose v) w ≡ w)
        × (watch_after_event u n (Off v) w ≡ w) × (watch_after_event u n (On v) w ≡ w) }
{}

/// A receiver that is switched on is a new one: it was offered nothing yet, and what earlier ones wrote stays.
pub fn new_receivers_wrote_nothing()
    ensures present { (plan : Plan) (clear : Packets) (u : LeafNumber) (n : ℕ) (w : Watch) → w.on ≡ false →
        present plan clear (watch_after_event u n (On u) w) ≡ [] }
    ensures written { (plan : Plan) (card : CardFields) (clear : Packets) (u : LeafNumber) (n : ℕ) (w : Watch) →
        w.on ≡ false → written plan card clear (watch_after_event u n (On u) w) ≡ written plan card clear w }
{}

/// What a receiver was offered, which clear packets are confirmed to it, and what it wrote, depends on no later event,
/// though the head end sends by the book of all events.
pub fn what_was_received_stays()
    ensures offered { (site : SiteFields) (later past : List Event) (clear : Packets) (u : LeafNumber) →
        AreInRange site → watch (plan_after site (length clear) (later ++ past)) clear u past
        ≡ watch (plan_after site (length clear) past) clear u past }
    ensures places { (site : SiteFields) (later past : List Event) (clear : Packets) (u : LeafNumber) →
        AreInRange site → confirmed_to_leaf (plan_after site (length clear) (later ++ past)) u
        (clear_sent_in clear past)
        (watch (plan_after site (length clear) (later ++ past)) clear u past)
        ≡ confirmed_to_leaf (plan_after site (length clear) past) u (clear_sent_in clear past)
        (watch (plan_after site (length clear) past) clear u past) }
    ensures written { (site : SiteFields) (later past : List Event) (card : CardFields) (clear : Packets)
        (u : LeafNumber) → AreInRange site →
        written (plan_after site (length clear) (later ++ past)) card (take (sends (length clear) past) clear)
        (watch (plan_after site (length clear) (later ++ past)) clear u past)
        ≡ written (plan_after site (length clear) past) card (take (sends (length clear) past) clear)
        (watch (plan_after site (length clear) past) clear u past) }
{}
