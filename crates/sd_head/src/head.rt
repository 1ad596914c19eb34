ghost use Rattle.std.specs.Prelude.{◌≡◌, ◌-◌, ℕ, List, [], length, true, None, Ok, IfOk, OnOk, IsErrOf};
ghost use Rattle.sd_base.specs.Count.{IsCaused};
ghost use Rattle.sd_engine.specs.Stage.{sink_state_of, HasGrown, IsCutShort};
ghost use Rattle.sd_site_cards.specs.SiteFields.{site_fields_of};
ghost use Rattle.sd_spec.specs.Plan.{Plan, period_of, word_of};
ghost use Rattle.sd_head.specs.Follows.{IsJudgement};
ghost use Rattle.sd_head.specs.Kept.{plan_of};
ghost use Rattle.sd_head.specs.Schedule.{begins_with};
ghost use Rattle.sd_head.specs.Staged.{head_closes, head_does, head_ends, head_refuses, head_sends, plan_of_head};
ghost use Rattle.sd_head.specs.Staged.{IsHeadEndAfter};
ghost use Rattle.sd_head.specs.Staged.{IsOfSent, IsOn, IsHeadReady};
ghost use Rattle.sd_head.specs.declared.judged.PatRule.{PatRule as PatRules};

use crate::fault::{HeadFault, LiveFault};
use crate::judged::{Judged, PatRule};
use crate::schedule::{begin, finish};
use crate::sender::Sender;
use crate::{Clear, ClearFault, Entitling};
use sd_base::{NoMemory, Steps};
use sd_book::Book;
use sd_engine::{Stage, StageFault};
use sd_packet::Packet;
use sd_ports::Sink;
use sd_site_cards::Site;
use std::alloc::Global;
use std::sync::ledger::Ledger;

/// The head end as a stage: it sends each clear packet as it is carried, with the tables and the message that stand
/// before it, and at the end the closing message (this project, docs/FORMATS.md, Broadcast).
pub struct Head {
    site: Site,
    clear: Clear,
    entitling: Entitling,
    sender: Sender,
    refusal: Option<HeadFault>,
}

impl Head {
    /// Before the first packet.
    pub fn new(alloc: Global, site: Site, book: Book) -> Result<Head, NoMemory>
        requires { book.height ≡ site.height }
        ensures value { IfOk result (λ head. IsHeadEndAfter (plan_of site book) [] head) }
        ensures live { IfOk result IsHeadReady }
    {
        Ok(Head {
            clear: Clear::new(alloc)?,
            entitling: Entitling::new(alloc, &site, book),
            sender: Sender::new(alloc, &site)?,
            refusal: None,
            site,
        })
    }

    /// What is learned of the packet as the next one, or the first rule that it breaks, with the rule on PATs or not.
    pub(crate) fn judge<'a>(
        &self,
        packet: &'a Packet,
        rule: PatRule,
    ) -> Result<Judged<'a>, ClearFault>
        ensures { IsJudgement rule (site_fields_of self.now.site) self.now.clear packet.now result }
    {
        self.clear.judge(&self.site, packet, rule)
    }

    /// Sends the packet, of which this was learned, as the next one. After a fault nothing more can be sent.
    pub(crate) fn send<K: Sink, L: Ledger>(
        &mut self,
        judged: &Judged<'_>,
        packet: &Packet,
        out: &mut K,
        steps: &mut Steps<L>,
    ) -> Result<(), LiveFault>
        requires on { IsOn self.old }
        requires judged { (rule : PatRules) ×
            IsJudgement rule (site_fields_of self.old.site) self.old.clear packet.now (Ok judged.now) }
        ensures value { OnOk result (HasGrown (sink_state_of K.Sink out.old) (sink_state_of K.Sink out.new) steps.old
            steps.new
            (head_sends self.old packet.now self.new)) }
        ensures on { OnOk result (IsOn self.new) }
        ensures memory { IsErrOf result LiveFault.NoMemory →
            (sink_state_of K.Sink out.new ≡ sink_state_of K.Sink out.old)
            × (begins_with (plan_of_head self.old) self.old.clear.count ≡ true) }
        ensures prefix { IsErrOf result LiveFault.Write → IsCutShort (sink_state_of K.Sink out.old)
            (sink_state_of K.Sink out.new)
            (IsOfSent (head_sends self.old packet.now) steps.old steps.new) }
        ensures cause { IsCaused (K.faults out.old) (K.faults out.new) (IsErrOf result LiveFault.Write) }
    {
        let count = self.clear.count();
        let Ok(inserted) = begin(&mut self.entitling, &self.site, count, steps) else {
            return Err(LiveFault::NoMemory);
        };
        let crypto = self.entitling.crypto();
        let message = self
            .sender
            .prepare(&self.site, crypto, &self.clear, inserted.message);
        let mut carried = *packet;
        judged.carry(&mut carried, crypto.number, &crypto.word);
        self.clear.take(judged);
        let emms = self.entitling.emms();
        match self.sender.send_packet(
            inserted.begins,
            emms,
            message,
            self.site.ecm,
            &carried,
            out,
        ) {
            Ok(()) => Ok(()),
            Err(_) => Err(LiveFault::Write),
        }
    }

    /// Sends the closing message. Then nothing more can be sent.
    pub(crate) fn send_closing<K: Sink, L: Ledger>(
        &mut self,
        out: &mut K,
        steps: &mut Steps<L>,
    ) -> Result<(), LiveFault>
        requires on { IsOn self.old }
        ensures value { OnOk result (HasGrown (sink_state_of K.Sink out.old) (sink_state_of K.Sink out.new) steps.old
            steps.new
            (head_closes self.old self.new)) }
        ensures unrefused { OnOk result (self.new.refusal ≡ None) }
        ensures memory { IsErrOf result LiveFault.NoMemory →
            (sink_state_of K.Sink out.new ≡ sink_state_of K.Sink out.old) × (self.old.clear.count ≡ 0) }
        ensures prefix { IsErrOf result LiveFault.Write → IsCutShort (sink_state_of K.Sink out.old)
            (sink_state_of K.Sink out.new)
            (IsOfSent (head_closes self.old) steps.old steps.new) }
        ensures cause { IsCaused (K.faults out.old) (K.faults out.new) (IsErrOf result LiveFault.Write) }
    {
        let count = self.clear.count();
        if let Err(NoMemory) = finish(&mut self.entitling, &self.site, count, steps) {
            return Err(LiveFault::NoMemory);
        }
        let crypto = self.entitling.crypto();
        let message = self.sender.prepare_closing(&self.site, crypto, &self.clear);
        let emms = self.entitling.emms();
        match self
            .sender
            .send_inserted(count == 0, emms, Some(message), self.site.ecm, out)
        {
            Ok(()) => Ok(()),
            Err(_) => Err(LiveFault::Write),
        }
    }

    /// How many packets were sent.
    pub(crate) fn sent(&self) -> u32
        ensures value { (plan : Plan) (before : List (List ℕ)) → IsHeadEndAfter plan before self.now →
            result ≡ length before }
        ensures count { result ≡ self.now.clear.count }
    {
        self.clear.count()
    }

    /// The period of the last packet that was sent, or of the first one to come.
    pub(crate) fn period(&self) -> u32
        ensures { (plan : Plan) (before : List (List ℕ)) → IsHeadEndAfter plan before self.now →
            result ≡ period_of plan (length before - 1) }
    {
        if self.clear.count() == 0 {
            self.site.first_period
        } else {
            self.entitling.crypto().period
        }
    }

    /// The number of the control word of the last packet that was sent, or of the first one to come.
    pub(crate) fn word(&self) -> u32
        ensures { (plan : Plan) (before : List (List ℕ)) → IsHeadEndAfter plan before self.now →
            result ≡ word_of plan.site (length before - 1) }
    {
        if self.clear.count() == 0 {
            self.site.first_word
        } else {
            self.entitling.crypto().number
        }
    }

    /// How many of the site's control words come after that one.
    pub(crate) fn words_left(&self) -> u32
        ensures { (plan : Plan) (before : List (List ℕ)) → IsHeadEndAfter plan before self.now →
            result ≡ plan.site.last_word - word_of plan.site (length before - 1) }
    {
        self.site.last_word.saturating_sub(self.word())
    }
}

// Written out, so that an owner drops a head end by one call and not vector by vector.
impl Drop for Head {
    fn drop(self) {
        let Head {
            site: _,
            clear: _,
            entitling: _,
            sender: _,
            refusal: _,
        } = self;
    }
}

impl<K: Sink, L: Ledger> Stage<K, L> for Head {
    type Fault = HeadFault;

    ghost live = { λ s. IsHeadReady s };

    ghost kept = { λ s. s.refusal };

    ghost does = { head_does };

    ghost ends = { head_ends };

    ghost refuses = { head_refuses };

    fn offer(
        &mut self,
        packet: &Packet,
        out: &mut K,
        steps: &mut Steps<L>,
    ) -> Result<(), StageFault<HeadFault>> {
        if let Some(fault) = self.refusal {
            return Err(StageFault::Refused(fault));
        }
        let judgement = self.judge(packet, PatRule::Asked);
        let judged = match &judgement {
            Ok(judged) => judged,
            Err(fault) => {
                self.refusal = Some(HeadFault::Clear(*fault));
                return Err(StageFault::Refused(HeadFault::Clear(*fault)));
            }
        };
        match self.send(judged, packet, out, steps) {
            Ok(()) => Ok(()),
            Err(LiveFault::Write) => Err(StageFault::Write),
            Err(LiveFault::NoMemory) => {
                self.refusal = Some(HeadFault::NoMemory);
                Err(StageFault::Refused(HeadFault::NoMemory))
            }
        }
    }

    fn close(&mut self, out: &mut K, steps: &mut Steps<L>) -> Result<(), StageFault<HeadFault>> {
        if let Some(fault) = self.refusal {
            return Err(StageFault::Refused(fault));
        }
        if let Some(fault) = self.clear.judge_end(&self.site) {
            self.refusal = Some(HeadFault::Clear(fault));
            return Err(StageFault::Refused(HeadFault::Clear(fault)));
        }
        match self.send_closing(out, steps) {
            Ok(()) => Ok(()),
            Err(LiveFault::Write) => Err(StageFault::Write),
            Err(LiveFault::NoMemory) => {
                self.refusal = Some(HeadFault::NoMemory);
                Err(StageFault::Refused(HeadFault::NoMemory))
            }
        }
    }
}
