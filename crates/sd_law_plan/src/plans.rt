//! What a plan says of streams, and of a broadcast after it.

ghost use Rattle.std.specs.Prelude.{◌≡◌, ◌+◌, ◌^◌, ◌<◌, ◌≤◌, ℕ, length, false};
ghost use Rattle.sd_base.specs.Types.{Packets, PacketNumber};
ghost use Rattle.sd_site_cards.specs.SiteFields.{SiteFields, AreInRange};
ghost use Rattle.sd_spec.specs.Kinds.{moved_pids};
ghost use Rattle.sd_spec.specs.Plan.{Plan, IsPlan, period_of, word_of};
ghost use Rattle.sd_spec.specs.Refused.{IsSendable, is_used_up};
ghost use Rattle.sd_law_broadcast.specs.Packets.{AreLong};
ghost use Rattle.sd_run_books.specs.Air.{cryptos_for, last_period_for, last_word_for};
ghost use Rattle.sd_law_plan.specs.Within.{IsWithinPlan};

/// The broadcast of a clear stream with packets has no more packets than `plan` prints for its numbers of clear packets
/// and PIDs, and exactly as many if one part of a message has room for all positions. Its periods and control words are
/// those that are printed, and each period's sections are sent as often as is printed. No clear stream has more than
/// 256 PIDs with positions.
pub fn broadcasts_are_within_plans()
    ensures told { (plan : Plan) (n : ℕ) (clear : Packets) → IsPlan plan → IsSendable plan.site clear →
        AreLong clear → 0 < length clear → length (moved_pids clear) ≤ n → IsWithinPlan plan n clear }
    ensures any { (plan : Plan) (clear : Packets) → IsPlan plan → IsSendable plan.site clear → AreLong clear →
        0 < length clear → IsWithinPlan plan 256 clear }
{}

/// A stream of as many packets as a site has control words for has no packet that is too long.
#[tactic(auto, using(crate::proofs::Airs::streams_have_words))]
pub fn planned_streams_have_words()
    ensures { (site : SiteFields) (m : ℕ) (k : PacketNumber) → AreInRange site → m < 2 ^ 32 → k < m →
        last_word_for site m ≤ site.last_word → is_used_up site k ≡ false }
{}

/// A broadcast from the next control word and period on has no control word and no period of this one's.
pub fn next_broadcasts_are_apart()
    ensures words { (plan more : Plan) (j k : PacketNumber) (m : ℕ) → AreInRange plan.site → j < m →
        more.site.first_word ≡ last_word_for plan.site m + 1 → word_of plan.site j < word_of more.site k }
    ensures periods { (plan more : Plan) (j k : PacketNumber) (m : ℕ) → AreInRange plan.site → AreInRange more.site →
        j < m → more.site.first_period ≡ last_period_for plan (cryptos_for plan.site m) + 1 →
        period_of plan j < period_of more k }
{}
