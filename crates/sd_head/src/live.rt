ghost use Rattle.std.specs.Prelude.{◌≡◌, ◌-◌, ◌==◌, ◌||◌, not, if◌then◌else◌, ℕ, List, [], length, false, Ok};
ghost use Rattle.std.specs.Prelude.{IfOk, OnOk, IsErrOf};
ghost use Rattle.sd_base.specs.Count.{with_added, IsCaused};
ghost use Rattle.sd_engine.specs.Stage.{sink_state_of, HasGrown, IsCutShort};
ghost use Rattle.sd_spec.specs.Plan.{Plan, period_of, word_of};
ghost use Rattle.sd_spec.specs.Aired.{aired, left_from};
ghost use Rattle.sd_spec.specs.Counting.{is_marked as is_marked_packet};
ghost use Rattle.sd_head.specs.Kept.{plan_of};
ghost use Rattle.sd_head.specs.Left.{is_over, with_marked, with_sent};
ghost use Rattle.sd_head.specs.Leaving.{HasRefused, IsLiveJudged, IsPacketLeftOut};
ghost use Rattle.sd_head.specs.Live.{live_breaks, live_ends, live_stops, live_takes, IsLiveAfter, IsOnAir};
ghost use Rattle.sd_head.specs.declared.live.Taken.TheVariants.{Begins, On};

use crate::fault::LiveFault;
use crate::head::Head;
use crate::judged::{Judged, PatRule};
use crate::left::{NONE_LEFT, add_marked, add_refused, add_sent, is_marked, renumber};
use sd_base::{NoMemory, Steps};
use sd_book::Book;
use sd_message::ClearFault;
use sd_packet::Packet;
use sd_ports::Sink;
use sd_site_cards::Site;
use sd_spec::LeftOut;
use std::alloc::Global;
use std::sync::ledger::Ledger;

/// A head end that goes on, whatever comes: it leaves out the packets that are marked or break a rule, and counts them
/// (this project, docs/FORMATS.md, On air).
pub struct Live {
    head: Head,
    // The number of packets.
    packets: u64,
    left_out: LeftOut,
}

/// What becomes of a broadcast at a packet (this project, docs/FORMATS.md, On air).
#[derive(Clone, Copy, PartialEq, Eq)]
pub enum Taken {
    /// It goes on.
    On,
    /// It goes on, and a period begins with the packet.
    Begins,
    /// It ends before the packet: no number or no control word is left for it.
    Full,
}

impl Live {
    /// Before the first packet.
    pub fn new(alloc: Global, site: Site, book: Book) -> Result<Live, NoMemory>
        requires { book.height ≡ site.height }
        ensures value { IfOk result (λ live. IsLiveAfter (plan_of site book) [] live) }
        ensures on { IfOk result IsOnAir }
    {
        Ok(Live {
            head: Head::new(alloc, site, book)?,
            packets: 0,
            left_out: NONE_LEFT,
        })
    }

    /// Takes the next packet: it is sent, or left out and counted. If the broadcast ends before it, nothing changes.
    pub fn take<K: Sink, L: Ledger>(
        &mut self,
        packet: &Packet,
        out: &mut K,
        steps: &mut Steps<L>,
    ) -> Result<Taken, LiveFault>
        requires on { IsOnAir self.old }
        ensures value { IfOk result (λ taken. HasGrown (sink_state_of K.Sink out.old) (sink_state_of K.Sink out.new)
            steps.old steps.new (live_takes self.old packet.now self.new taken)) }
        ensures on { IfOk result (λ _. IsOnAir self.new) }
        ensures memory { IsErrOf result LiveFault.NoMemory →
            sink_state_of K.Sink out.new ≡ sink_state_of K.Sink out.old }
        ensures prefix { IsErrOf result LiveFault.Write → IsCutShort (sink_state_of K.Sink out.old)
            (sink_state_of K.Sink out.new)
            (live_stops self.old packet.now steps.old steps.new) }
        ensures cause { IsCaused (K.faults out.old) (K.faults out.new) (IsErrOf result LiveFault.Write) }
    {
        if is_marked(packet) {
            self.mark();
            return Ok(Taken::On);
        }
        match &self.head.judge(packet, PatRule::Skipped) {
            Ok(judged) => self.send(judged, packet, out, steps),
            Err(fault) => Ok(self.leave_out(*fault)),
        }
    }
    /// Sends the closing message. After it nothing more can be taken.
    pub fn close<K: Sink, L: Ledger>(
        &mut self,
        out: &mut K,
        steps: &mut Steps<L>,
    ) -> Result<(), LiveFault>
        requires on { IsOnAir self.old }
        ensures value { OnOk result (HasGrown (sink_state_of K.Sink out.old) (sink_state_of K.Sink out.new)
            steps.old steps.new (live_ends self.old)) }
        ensures memory { IsErrOf result LiveFault.NoMemory →
            sink_state_of K.Sink out.new ≡ sink_state_of K.Sink out.old }
        ensures prefix { IsErrOf result LiveFault.Write → IsCutShort (sink_state_of K.Sink out.old)
            (sink_state_of K.Sink out.new)
            (live_breaks self.old steps.old steps.new) }
        ensures cause { IsCaused (K.faults out.old) (K.faults out.new) (IsErrOf result LiveFault.Write) }
    {
        self.head.send_closing(out, steps)
    }

    /// What is left out.
    pub fn left_out(&self) -> LeftOut
        ensures { (plan : Plan) (past : List (List ℕ)) → IsLiveAfter plan past self.now →
            result ≡ left_from plan.site [] 0 past }
    {
        self.left_out
    }

    /// How many packets were taken.
    pub fn packets(&self) -> u64
        ensures { (plan : Plan) (past : List (List ℕ)) → IsLiveAfter plan past self.now → result ≡ length past }
    {
        self.packets
    }

    /// How many of them were sent.
    pub fn sent(&self) -> u64
        ensures { (plan : Plan) (past : List (List ℕ)) → IsLiveAfter plan past self.now →
            result ≡ length (aired plan.site past) }
    {
        u64::from(self.head.sent())
    }

    /// The period of the closing message, if the broadcast ends here.
    pub fn period(&self) -> u32
        ensures { (plan : Plan) (past : List (List ℕ)) → IsLiveAfter plan past self.now →
            result ≡ period_of plan (length (aired plan.site past) - 1) }
    {
        self.head.period()
    }

    /// The number of the control word of the closing message, if the broadcast ends here.
    pub fn word(&self) -> u32
        ensures { (plan : Plan) (past : List (List ℕ)) → IsLiveAfter plan past self.now →
            result ≡ word_of plan.site (length (aired plan.site past) - 1) }
    {
        self.head.word()
    }

    /// How many control words of the site come after that one: those that were not used.
    pub fn left(&self) -> u32
        ensures { (plan : Plan) (past : List (List ℕ)) → IsLiveAfter plan past self.now →
            result ≡ plan.site.last_word - word_of plan.site (length (aired plan.site past) - 1) }
    {
        self.head.words_left()
    }

    // Counts a packet that is marked.
    fn mark(&mut self)
        ensures packets { self.new.packets ≡ with_added self.old.packets 1 }
        ensures left_out { self.new.left_out ≡ with_marked self.old.left_out }
        ensures same { self.new.head ≡ self.old.head }
    {
        add_marked(&mut self.left_out);
        self.packets = self.packets.saturating_add(1);
    }

    // Counts a packet that breaks a rule, if the broadcast doesn't end before it.
    fn leave_out(&mut self, fault: ClearFault) -> Taken
        ensures { IsPacketLeftOut (is_over fault) fault self.old self.new result }
    {
        if let ClearFault::TooLong(_) = fault {
            return Taken::Full;
        }
        self.refuse(fault);
        Taken::On
    }

    // Counts a packet that breaks a rule.
    fn refuse(&mut self, fault: ClearFault)
        ensures { HasRefused fault self.old self.new }
    {
        add_refused(&mut self.left_out, renumber(fault, self.packets));
        self.packets = self.packets.saturating_add(1);
    }

    // Sends a packet, of which this was learned.
    fn send<K: Sink, L: Ledger>(
        &mut self,
        judged: &Judged<'_>,
        packet: &Packet,
        out: &mut K,
        steps: &mut Steps<L>,
    ) -> Result<Taken, LiveFault>
        requires on { IsOnAir self.old }
        requires unmarked { is_marked_packet packet.now ≡ false }
        requires judged { IsLiveJudged self.old packet.now (Ok judged.now) }
        ensures value { IfOk result (λ taken. HasGrown (sink_state_of K.Sink out.old) (sink_state_of K.Sink out.new)
            steps.old steps.new (live_takes self.old packet.now self.new taken)) }
        ensures on { IfOk result (λ _. IsOnAir self.new) }
        ensures memory { IsErrOf result LiveFault.NoMemory →
            sink_state_of K.Sink out.new ≡ sink_state_of K.Sink out.old }
        ensures prefix { IsErrOf result LiveFault.Write → IsCutShort (sink_state_of K.Sink out.old)
            (sink_state_of K.Sink out.new)
            (live_stops self.old packet.now steps.old steps.new) }
        ensures cause { IsCaused (K.faults out.old) (K.faults out.new) (IsErrOf result LiveFault.Write) }
    {
        let count = self.head.sent();
        let last = self.head.period();
        match self.head.send(judged, packet, out, steps) {
            Ok(()) => {
                self.count_sent(packet);
                Ok(told_of_sent(count, last, self.head.period()))
            }
            Err(fault) => Err(fault),
        }
    }

    // Counts a packet that was sent.
    fn count_sent(&mut self, packet: &Packet)
        ensures packets { self.new.packets ≡ with_added self.old.packets 1 }
        ensures left_out { self.new.left_out ≡ with_sent self.old.left_out packet.now }
        ensures same { self.new.head ≡ self.old.head }
    {
        add_sent(&mut self.left_out, packet);
        self.packets = self.packets.saturating_add(1);
    }
}

// What is told of a packet of this period that was sent as the one of this number, after one of the last period.
fn told_of_sent(number: u32, last: u32, period: u32) -> Taken
    ensures { result ≡ (if (number == 0) || not (last == period) then Begins else On) }
{
    if number == 0 || last != period {
        Taken::Begins
    } else {
        Taken::On
    }
}

// Written out, so that an owner drops it by one call.
impl Drop for Live {
    fn drop(self) {
        let Live {
            head: _,
            packets: _,
            left_out: _,
        } = self;
    }
}
