ghost use Rattle.std.specs.Prelude.{◌≡◌, ◌+◌, ◌-◌, ◌*◌, ◌^◌, ◌<◌, ◌≤◌, ◌&&◌, ℕ, List, true, false, Some, None};
ghost use Rattle.std.specs.Prelude.{MatchResult, MatchOption, is_none, nat_le, not};
ghost use Rattle.std.specs.Prelude.{length, get_or, slice_index};
ghost use Rattle.sd_packet.specs.Header.{payload_start_of, pid_of, scrambling_of};
ghost use Rattle.sd_packet.specs.Positions.{is_placed};
ghost use Rattle.sd_site_cards.specs.SiteFields.{site_fields_of};
ghost use Rattle.sd_psi.specs.Rewriting.{restore_fault};
ghost use Rattle.sd_spec.specs.Plan.{crypto_length};
ghost use Rattle.sd_spec.specs.Carried.{pmt_carried};
ghost use Rattle.sd_spec.specs.declared.kind.Kind.TheVariants as Kind;
ghost use Rattle.sd_spec.specs.Refused.{is_reserved_pid as is_taken_pid, pat_wrong};
ghost use Rattle.sd_spec.specs.Refused.{end_refusal, is_full_own, is_used_up};
ghost use Rattle.sd_head.specs.declared.judged.PatRule.{PatRule as PatRules};
ghost use Rattle.sd_head.specs.After.{IsClearAfter};
ghost use Rattle.sd_head.specs.Follows.{limit_fault, wrong_by, IsJudgement, IsMove, IsPatOf};

use crate::clear::{Clear, FIRST_POSITION};
use crate::judged::{Judged, Move, PatRule};
use sd_message::{ClearFault, MOST_PLACES};
use sd_packet::{Packet, advance};
use sd_psi::{FormFault, Pat, pat_of, restore_pmt, rewrite_pmt};
use sd_site_cards::Site;

impl Clear {
    /// How many packets were taken.
    pub fn count(&self) -> u32
        ensures { result ≡ self.now.count }
    {
        self.count
    }

    // Whether the PAT in force gives the PID to a PMT.
    fn is_pmt(&self, pid: u16) -> bool
        requires { pid < 8192 }
        ensures { result ≡ get_or self.now.pmts.items pid false }
    {
        self.pmts[usize::from(pid)]
    }

    // The position of the PID.
    pub(crate) fn position_of(&self, pid: u16) -> u64
        requires { pid < 8192 }
        ensures { result ≡ slice_index self.now.positions.items pid }
    {
        self.positions[usize::from(pid)]
    }

    /// What is learned of the packet as the next one, or why it is refused: the first rule that it breaks, with the
    /// rule on PATs or without it (docs/FORMATS.md, Broadcast).
    pub fn judge<'a>(
        &self,
        site: &Site,
        packet: &'a Packet,
        rule: PatRule,
    ) -> Result<Judged<'a>, ClearFault>
        ensures { IsJudgement rule (site_fields_of site.now) self.now packet.now result }
    {
        let number = u64::from(self.count);
        let pid = packet.pid();
        if packet.scrambling() != 0 {
            return Err(ClearFault::AlreadyScrambled(number));
        }
        if is_taken(site, pid) {
            return Err(ClearFault::PidTaken(number, pid));
        }
        if packet.is_placed() {
            self.judge_placed(site, packet)
        } else {
            self.judge_passed(site, packet, rule)
        }
    }

    /// Why the end is refused: no packet was taken, and no control word is left for the closing message.
    #[tactic(auto, using(crate::proofs::Judging::end_counted))]
    pub fn judge_end(&self, site: &Site) -> Option<ClearFault>
        ensures { (before : List (List ℕ)) → IsClearAfter before self.now →
            result ≡ end_refusal (site_fields_of site.now) before }
    {
        if self.count == 0 && self.is_at_end(site) {
            return Some(ClearFault::TooLong(0));
        }
        None
    }

    // Judges a packet that has no position, is clear, and is on a PID that it may have.
    fn judge_passed<'a>(
        &self,
        site: &Site,
        packet: &'a Packet,
        rule: PatRule,
    ) -> Result<Judged<'a>, ClearFault>
        requires unplaced { is_placed packet.now ≡ false }
        requires number { self.now.count < 2 ^ 32 }
        requires clear { scrambling_of packet.now ≡ 0 }
        requires free { is_taken_pid (site_fields_of site.now) (pid_of packet.now) ≡ false }
        ensures { IsJudgement rule (site_fields_of site.now) self.now packet.now result }
    {
        let number = u64::from(self.count);
        match pat_by(rule, packet) {
            Ok(_) if self.is_at_end(site) => Err(ClearFault::TooLong(number)),
            Ok(pat) => Ok(Judged::Passed(pat)),
            Err(fault) => Err(ClearFault::PatForm(number, fault)),
        }
    }

    // Judges a packet that has a position, is clear, and is on a PID that it may have. Most are scrambled: what is
    // learned of those is small, and nothing else is copied.
    fn judge_placed<'a>(&self, site: &Site, packet: &'a Packet) -> Result<Judged<'a>, ClearFault>
        requires placed { is_placed packet.now ≡ true }
        requires number { self.now.count < 2 ^ 32 }
        requires clear { scrambling_of packet.now ≡ 0 }
        requires free { is_taken_pid (site_fields_of site.now) (pid_of packet.now) ≡ false }
        ensures { (rule : PatRules) → IsJudgement rule (site_fields_of site.now) self.now packet.now result }
    {
        let next = self.next_move(packet);
        if self.is_pmt(next.pid) {
            return self.judge_pmt(site, packet, next);
        }
        match self.limit(site, next) {
            Some(fault) => Err(fault),
            None => Ok(Judged::Scrambled(next)),
        }
    }

    // Judges a PMT that makes this move.
    fn judge_pmt<'a>(
        &self,
        site: &Site,
        packet: &'a Packet,
        next: Move,
    ) -> Result<Judged<'a>, ClearFault>
        requires moves { IsMove self.now.positions.items packet.now next }
        requires pmt { get_or self.now.pmts.items (pid_of packet.now) false ≡ true }
        requires number { self.now.count < 2 ^ 32 }
        requires clear { scrambling_of packet.now ≡ 0 }
        requires free { is_taken_pid (site_fields_of site.now) (pid_of packet.now) ≡ false }
        ensures { (rule : PatRules) → IsJudgement rule (site_fields_of site.now) self.now packet.now result }
    {
        let Some(carried) = carried_pmt(site, packet) else {
            return Err(ClearFault::PmtForm(u64::from(self.count), FormFault::NoRoom));
        };
        match self.limit(site, next) {
            Some(fault) => Err(fault),
            None => Ok(Judged::Pmt(next, carried)),
        }
    }

    // Why a packet that makes this move is one too many: no position is left for its PID, or nothing for the packet.
    fn limit(&self, site: &Site, next: Move) -> Option<ClearFault>
        ensures { result ≡ limit_fault (site_fields_of site.now) self.now next }
    {
        let number = u64::from(self.count);
        if self.is_one_too_many(next) {
            return Some(ClearFault::TooManyPids(number));
        }
        if self.is_at_end(site) {
            return Some(ClearFault::TooLong(number));
        }
        None
    }

    // How the packet moves the position of its PID.
    fn next_move(&self, packet: &Packet) -> Move
        requires placed { is_placed packet.now ≡ true }
        requires number { self.now.count < 2 ^ 32 }
        ensures { IsMove self.now.positions.items packet.now result }
    {
        let pid = packet.pid();
        let position = self.position_of(pid);
        Move {
            pid,
            position: advance(position, packet.counter()),
            is_first: position == FIRST_POSITION,
        }
    }

    // Whether the PID would be one more than may have positions.
    fn is_one_too_many(&self, next: Move) -> bool
        ensures { result ≡ (next.is_first && nat_le MOST_PLACES (length self.now.pids.items)) }
    {
        next.is_first && self.pids.len() >= MOST_PLACES
    }

    // Whether no number of a packet, or no control word of the site's, is left for the packet.
    fn is_at_end(&self, site: &Site) -> bool
        ensures { result ≡ is_used_up (site_fields_of site.now) self.now.count }
    {
        self.count == u32::MAX || u64::from(self.count) >= most_packets(site)
    }
}

// How many packets the site's control words are enough for. A division by the packet would take longer.
fn most_packets(site: &Site) -> u64
    ensures { result ≡ (site.now.last_word + 1 - site.now.first_word) * crypto_length (site_fields_of site.now) }
{
    let words = (u64::from(site.last_word) + 1).saturating_sub(u64::from(site.first_word));
    words * u64::from(site.every * site.cryptos)
}

// Whether the PID is 1 or that of the site's messages.
fn is_taken(site: &Site, pid: u16) -> bool
    ensures { result ≡ is_taken_pid (site_fields_of site.now) pid }
{
    pid == 1 || pid == site.emm || pid == site.ecm
}

// The current PAT that the packet is, if it is one, or what is wrong with a packet that must be a PAT by this rule.
fn pat_by(rule: PatRule, packet: &Packet) -> Result<Option<Pat<'_>>, FormFault>
    ensures { MatchResult result (λ pat. (wrong_by rule packet.now ≡ None) × IsPatOf packet.now pat)
        (λ fault. wrong_by rule packet.now ≡ Some fault) }
{
    match (current_pat(packet), rule) {
        (Ok(pat), _) => Ok(pat),
        (Err(fault), PatRule::Asked) => Err(fault),
        (Err(_), PatRule::Skipped) => Ok(None),
    }
}

// Whether the packet is on PID 0, has a payload, and is no PAT by itself.
pub(crate) fn is_bad_pat(packet: &Packet) -> bool
    ensures { result ≡ not (is_none (pat_wrong packet.now)) }
{
    current_pat(packet).is_err()
}

// The current PAT that the packet is, if it is one, or what is wrong with a packet that must be a PAT.
fn current_pat(packet: &Packet) -> Result<Option<Pat<'_>>, FormFault>
    ensures { MatchResult result (λ pat. (pat_wrong packet.now ≡ None) × IsPatOf packet.now pat)
        (λ fault. pat_wrong packet.now ≡ Some fault) }
{
    if packet.pid() != 0 || packet.payload().is_empty() {
        return Ok(None);
    }
    let pat = pat_of(packet)?;
    if pat.current() {
        Ok(Some(pat))
    } else {
        Ok(None)
    }
}

// The PMT as it is carried. There is none if it can't be rewritten and could be restored all the same.
fn carried_pmt(site: &Site, packet: &Packet) -> Option<Packet>
    requires { payload_start_of packet.now < 188 }
    ensures { MatchOption result (is_full_own (site_fields_of site.now) Kind.Pmt packet.now ≡ true)
        (λ carried. (is_full_own (site_fields_of site.now) Kind.Pmt packet.now ≡ false)
        × (carried ≡ pmt_carried (site_fields_of site.now) packet.now)) }
{
    let mut carried = *packet;
    match rewrite_pmt(&mut carried, site.ca, site.ecm) {
        Ok(()) => Some(carried),
        Err(_) if is_restorable(site, packet) => None,
        Err(_) => Some(carried),
    }
}

// Whether the PMT could be restored.
fn is_restorable(site: &Site, packet: &Packet) -> bool
    requires { payload_start_of packet.now < 188 }
    ensures { result ≡ is_none (restore_fault site.now.ca site.now.ecm packet.now) }
{
    let mut restored = *packet;
    restore_pmt(&mut restored, site.ca, site.ecm).is_ok()
}
