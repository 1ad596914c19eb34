//! What a receiver does with packets that are offered one after the other, and which packets change nothing it keeps.

ghost use Rattle.std.specs.Prelude.{◌≡◌, ℕ, ◌+◌, ◌-◌, ◌^◌, ◌<◌, ◌≤◌, ◌++◌, ◌∷◌, [], List, length, true, map, Some};
ghost use Rattle.sd_engine.specs.Stage.{Chain};
ghost use Rattle.sd_message.specs.declared.stream_fault.StreamFault.{StreamFault};
ghost use Rattle.sd_site_cards.specs.CardFields.{CardFields};
ghost use Rattle.sd_spec.specs.Heard.{Heard};
ghost use Rattle.sd_spec.specs.Stretches.{current, sections_seen};
ghost use Rattle.sd_message.specs.EcmParts.{Message};
ghost use Rattle.sd_spec.specs.Confirmed.{written_from};
ghost use Rattle.sd_receive.specs.Receiving.{receiver_card, HasReceived, receiver_does, Refusing, OutcomeOf, BreakAt};
ghost use Rattle.sd_receive.specs.declared.receiver.Receiver.{Receiver};
ghost use Rattle.sd_receive.specs.PeriodKeys.{IsEntitled, tells_nothing};
ghost use Rattle.sd_receive.specs.declared.emm.PeriodKeys.{PeriodKeys};
ghost use Rattle.sd_receive.specs.PacketBuffer.{after_message};
ghost use Rattle.sd_receive.specs.Writing.{wrote_of};

/// If none of the packets is refused, a receiver writes what the specification says of them, and its state is the one
/// after them. The steps of the generator that it takes are at most the height of the tree times the number of packets
/// that take a key.
#[tactic(auto, using(crate::proofs::Chained::came_to_all))]
pub fn packets_are_opened()
    ensures { (packets : List (List ℕ)) (s t : Receiver) (bytes : List ℕ) (n : ℕ) → HasReceived [] s →
        length packets ≤ 2 ^ 64 - 1 → Chain receiver_does s packets t bytes n →
        OutcomeOf (receiver_card s) packets t bytes n }
{}

/// If a receiver refuses a packet, it is the first that the specification refuses, and for the same reason. What was
/// written is what the specification says of the packets up to it, whatever comes after it.
pub fn refusals_come_first()
    ensures { (packets : List (List ℕ)) (s mid : Receiver) (packet : List ℕ) (more : List (List ℕ)) (why : StreamFault)
        (first last : List ℕ) (m k : ℕ) → HasReceived [] s → length packets < 2 ^ 64 - 1 →
        Chain receiver_does s packets mid first m → Refusing mid packet why last k →
        BreakAt (receiver_card s) packets packet more why (first ++ last) (m + k) }
{}

/// The sections that were seen of an earlier period than the current one stay as they are.
#[tactic(auto, using(crate::proofs::Periods::past_stands))]
pub fn past_periods_stand()
    ensures { (q : ℕ) (heard : Heard) (tr : List Heard) → q < current tr →
        sections_seen q (heard ∷ tr) ≡ sections_seen q tr }
{}

/// No section of a later period than the current one was seen.
#[tactic(auto, using(crate::proofs::Periods::ahead_none))]
pub fn nothing_ahead()
    ensures { (q : ℕ) (tr : List Heard) → current tr < q → sections_seen q tr ≡ [] }
{}

/// A packet that is no section and completes no message changes nothing that is kept.
pub fn others_leave_it()
    ensures { (card : CardFields) (heard : Heard) (tr : List Heard) (state : PeriodKeys) →
        tells_nothing tr heard ≡ true → IsEntitled card tr state → IsEntitled card (heard ∷ tr) state }
{}

/// What a buffer writes of the packets held back after a message is what that message and the next one confirm.
pub fn held_packets_are_confirmed()
    ensures { (a b : Message) (word : List ℕ) (ca ecm : ℕ) (held : List (ℕ × List ℕ)) →
        wrote_of (Some (after_message a word held)) ca ecm b.places ≡ written_from (record {
          first = a;
          last = b;
          word = word;
          ca = ca;
          ecm = ecm;
          packets = map (λ h. h.1) held;
        }) [] held }
{}
