//! The book that the events of a field make, and what is sent by it. Events are listed with the newest first.

ghost use Rattle.std.specs.Prelude.{◌≡◌, ◌⊎◌, ◌+◌, ◌^◌, ◌<◌, ◌≤◌, ◌++◌, ℕ, true, List, All, count_by, length, max, min};
ghost use Rattle.sd_base.specs.Types.{Packets, Height, PeriodNumber, PacketNumber};
ghost use Rattle.sd_site_cards.specs.SiteFields.{SiteFields, AreInRange};
ghost use Rattle.sd_book.specs.declared.command.Command.{Command};
ghost use Rattle.sd_book.specs.Limits.{most_periods};
ghost use Rattle.sd_book.specs.Commands.{commands_in, commands_until, last_period};
ghost use Rattle.sd_book.specs.Limits.{IsDraft, IsWithinLimits};
ghost use Rattle.sd_spec.specs.Plan.{Plan, IsPlan, period_of, sets_at};
ghost use Rattle.sd_spec.specs.Sent.{body};
ghost use Rattle.sd_spec.specs.declared.event.Event.{Event};
ghost use Rattle.sd_spec.specs.Events.{is_of, is_send};
ghost use Rattle.sd_spec.specs.Book.{sends, open_period, period_after, period_to_reach, with_periods_to, event_book};
ghost use Rattle.sd_spec.specs.Book.{plan_after};
ghost use Rattle.sd_spec.specs.Book.{accepted, greatest_period, commands_of};

/// The number of clear packets that were sent is the number of sends, or that of all clear packets if it is smaller. It
/// never falls.
pub fn sends_are_counted()
    ensures count { (m : ℕ) (past : List Event) → sends m past ≡ min m (count_by is_send past) }
    ensures rise { (m : ℕ) (later past : List Event) → sends m past ≤ sends m (later ++ past) }
{}

/// After a send, a command is of a later period than all that the book has to have, and of the next one if a book can
/// have it. With more packets neither the period of a command nor that of the book falls, and each rises by at most one
/// with a packet after the first.
pub fn commands_are_of_later_periods()
    ensures above { (site : SiteFields) (k : ℕ) → 0 < k → period_to_reach site k < period_after site k }
    ensures next { (site : SiteFields) (k : ℕ) → 0 < k → period_after site k ≤ most_periods →
        period_after site k ≡ period_to_reach site k + 1 }
    ensures rise { (site : SiteFields) (j : PacketNumber) (k : ℕ) → AreInRange site → j ≤ k →
        (period_to_reach site j ≤ period_to_reach site k) × (period_after site j ≤ period_after site k) }
    ensures step { (site : SiteFields) (k : ℕ) → AreInRange site → 0 < k →
        (period_to_reach site (k + 1) ≤ period_to_reach site k + 1) ×
        (period_after site (k + 1) ≤ period_after site k + 1) }
{}

/// A filled book ends with the period that it is filled to, or with a later one that it had. To fill it twice is to
/// fill it once. The commands that decide its periods stay.
pub fn periods_fill_books()
    ensures last { (q : PeriodNumber) (book : List Command) →
        last_period (with_periods_to q book) ≡ max q (last_period book) }
    ensures again { (p q : PeriodNumber) (book : List Command) → p ≤ q →
        with_periods_to q (with_periods_to p book) ≡ with_periods_to q book }
    ensures keeps { (p q : PeriodNumber) (book : List Command) → q ≤ last_period book →
        commands_until q (with_periods_to p book) ≡ commands_until q book }
{}

/// The book of a field has the period on air, if a book can have it. It has no period that no book can have, and none
/// above that of the next command.
pub fn event_books_go_on()
    ensures reached { (site : SiteFields) (m : ℕ) (past : List Event) →
        period_to_reach site (sends m past) ≤ last_period (event_book site m past) }
    ensures most { (site : SiteFields) (m : ℕ) (past : List Event) →
        last_period (event_book site m past) ≤ most_periods }
    ensures within { (site : SiteFields) (m : ℕ) (past : List Event) → AreInRange site →
        last_period (event_book site m past) ≤ period_after site (sends m past) }
{}

/// At most 524,288 events of a tree of height at most 6 make a book within the limits. Each front of it may be the
/// front of a book, and the site with it is a plan.
pub fn event_books_fit()
    ensures fits { (site : SiteFields) (m : ℕ) (d : Height) (past : List Event) → d ≤ 6 → length past ≤ 524288 →
        All (λ event. is_of d event ≡ true) past → IsWithinLimits d (event_book site m past) }
    ensures fronts { (site : SiteFields) (m : ℕ) (d : Height) (past : List Event) (front rest : List Command) → d ≤ 6 →
        length past ≤ 524288 → All (λ event. is_of d event ≡ true) past →
        event_book site m past ≡ front ++ rest → IsDraft d front }
    ensures plan { (site : SiteFields) (m : ℕ) (past : List Event) → AreInRange site → site.ca < 2 ^ 16 →
        site.height ≤ 6 → length past ≤ 524288 → All (λ event. is_of site.height event ≡ true) past →
        IsPlan (plan_after site m past) }
{}

/// The commands of each period of the book are the accepted ones of that period, in the order of their events. The last
/// period is the greatest of the accepted commands' periods and of the one that the book has to have.
pub fn commands_are_in_their_periods()
    ensures turn { (site : SiteFields) (m : ℕ) (past : List Event) (q : PeriodNumber) → AreInRange site →
        commands_in (event_book site m past) q ≡ commands_of q (accepted site m past) }
    ensures last { (site : SiteFields) (m : ℕ) (past : List Event) → AreInRange site →
        last_period (event_book site m past)
        ≡ max (greatest_period (accepted site m past)) (period_to_reach site (sends m past)) }
{}

/// The number of a sent packet's period depends on no command. It is a period that the book has to have, or the site's
/// first period, above all that a book can have, whose leaves are those of the book's last.
pub fn periods_of_packets_stay()
    ensures period { (site : SiteFields) (m : ℕ) (past : List Event) (j : PacketNumber) → AreInRange site →
        j < sends m past →
        period_of (plan_after site m past) j ≡ max site.first_period (min (open_period site j) most_periods) }
    ensures kept { (site : SiteFields) (m : ℕ) (past : List Event) (j : PacketNumber) → AreInRange site →
        j < sends m past →
        (period_of (plan_after site m past) j ≤ period_to_reach site (sends m past))
        ⊎ ((most_periods < period_of (plan_after site m past) j) × (period_to_reach site (sends m past) ≡ most_periods)
        × (last_period (event_book site m past) ≡ most_periods)) }
{}

/// Later events change nothing of what decides the periods that the book has to have.
#[tactic(auto, using(sd_spec::proofs::Books::later_events))]
pub fn reached_periods_stay()
    ensures { (site : SiteFields) (m : ℕ) (later past : List Event) (q : PeriodNumber) → AreInRange site →
        0 < sends m past →
        q ≤ period_to_reach site (sends m past) →
        commands_until q (event_book site m (later ++ past)) ≡ commands_until q (event_book site m past) }
{}

/// Of one site, plans that have the same period for each clear packet, and the same sets in it, send the same packets.
#[tactic(auto, using(sd_spec::proofs::Agreeing::plans_agree))]
pub fn packets_depend_on_their_periods()
    ensures { (a b : Plan) (clear : Packets) → a.site ≡ b.site →
        ((k : ℕ) → k < length clear → period_of a k ≡ period_of b k) →
        ((k : ℕ) → k < length clear → sets_at a (period_of a k) ≡ sets_at b (period_of b k)) →
        body a clear ≡ body b clear }
{}

/// What was sent depends on no later event: by the book of all events, the packets that were sent are those that the
/// book of the events so far makes.
#[tactic(auto, using(sd_spec::proofs::Agreeing::what_was_sent_stays))]
pub fn what_was_sent_stays()
    ensures { (site : SiteFields) (m : ℕ) (later past : List Event) (clear : Packets) → AreInRange site →
        length clear ≤ sends m past →
        body (plan_after site m (later ++ past)) clear ≡ body (plan_after site m past) clear }
{}
