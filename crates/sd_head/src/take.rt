ghost use Rattle.std.specs.Prelude.{◌≡◌, ◌+◌, ◌*◌, ◌<◌, ◌≤◌, ◌++◌, ◌∷◌, [], ℕ, List, length, nat_lt};
ghost use Rattle.std.specs.Prelude.{IfSome, vec_len, vec_capacity};
ghost use Rattle.std.specs.List.{position};
ghost use Rattle.sd_packet.specs.Positions.{first_position};
ghost use Rattle.sd_psi.specs.Tables.{pmt_pids_of};
ghost use Rattle.sd_site_cards.specs.SiteFields.{SiteFields};
ghost use Rattle.sd_message.specs.declared.ecm_format.TheConstants.{MOST_PLACES};
ghost use Rattle.sd_spec.specs.Kinds.{pmts_in, moved_pids, put_in};
ghost use Rattle.sd_head.specs.Known.{ArePids, AreReachablePositions, AreMarkedPids};
ghost use Rattle.sd_head.specs.After.{IsClearAfter, ArePositions};
ghost use Rattle.sd_head.specs.Follows.{move_in, pat_in, HasPidRoom, IsMoveOf, IsPatOf, MayFollow};

use crate::clear::Clear;
use crate::judged::{Judged, Move};
use sd_psi::Pat;

impl Clear {
    /// Takes the packet, of which this was learned, as the next one.
    pub fn take(&mut self, judged: &Judged<'_>)
        requires { (site : SiteFields) × (packet : List ℕ) × MayFollow site self.old packet judged.now }
        ensures { (site : SiteFields) (before : List (List ℕ)) (packet : List ℕ) →
            MayFollow site self.old packet judged.now → IsClearAfter before self.old →
            IsClearAfter (before ++ packet ∷ []) self.new }
    {
        learn(&mut self.pmts, judged.pat());
        move_position(&mut self.positions, &mut self.pids, judged.next());
        self.count += 1;
    }
}

impl<'a> Judged<'a> {
    // The current PAT that the packet is, if it is one.
    fn pat(&self) -> Option<Pat<'a>>
        ensures { result ≡ pat_in self.now }
    {
        match self {
            Judged::Passed(pat) => *pat,
            Judged::Pmt(_, _) => None,
            Judged::Scrambled(_) => None,
        }
    }

    // The move that the packet makes, if it has a position.
    fn next(&self) -> Option<Move>
        ensures { result ≡ move_in self.now }
    {
        match self {
            Judged::Passed(_) => None,
            Judged::Pmt(next, _) => Some(*next),
            Judged::Scrambled(next) => Some(*next),
        }
    }
}

// If the packet is a current PAT, marks the PIDs of its PMTs and no others.
fn learn(marks: &mut [bool], pat: Option<Pat<'_>>)
    requires { length marks.old ≡ 8192 }
    ensures { (before : List (List ℕ)) (packet : List ℕ) → IsPatOf packet pat.entry →
        AreMarkedPids (pmts_in before) marks.old → AreMarkedPids (pmts_in (before ++ packet ∷ [])) marks.new }
{
    if let Some(pat) = pat {
        mark(marks, &pat);
    }
}

// Marks the PIDs of its PMTs, and no others.
fn mark(marks: &mut [bool], pat: &Pat)
    requires { length marks.old ≡ 8192 }
    ensures { AreMarkedPids (pmt_pids_of pat.now.section.bytes.now) marks.new }
{
    marks.fill(false);
    let mut pids = pat.pmt_pids();
    while let Some(pid) = pids.next() {
        marks[usize::from(pid)] = true;
    }
}

// Makes a packet's move, if it makes one, and puts a PID that moves for the first time among the others.
fn move_position(positions: &mut [u64], pids: &mut Vec<u16>, next: Option<Move>)
    requires long { length positions.old ≡ 8192 }
    requires few { vec_len pids.old ≤ MOST_PLACES }
    requires capacity { MOST_PLACES ≤ vec_capacity pids.old }
    requires known { ArePids pids.old.items }
    requires pid { IfSome next (λ move. move.pid < 8192) }
    requires room { HasPidRoom pids.old.items next }
    ensures placed { (before : List (List ℕ)) (packet : List ℕ) → IsMoveOf positions.old packet next →
        ArePositions before positions.old → ArePositions (before ++ packet ∷ []) positions.new }
    ensures moved { (before : List (List ℕ)) (packet : List ℕ) → IsMoveOf positions.old packet next →
        ArePositions before positions.old → pids.old.items ≡ moved_pids before →
        pids.new.items ≡ moved_pids (before ++ packet ∷ []) }
    ensures near { (n : ℕ) → IfSome next (λ move. move.position ≤ first_position + 16 * (n + 1)) →
        AreReachablePositions n positions.old → AreReachablePositions (n + 1) positions.new }
    ensures few { vec_len pids.new ≤ MOST_PLACES }
    ensures capacity { MOST_PLACES ≤ vec_capacity pids.new }
    ensures known { ArePids pids.new.items }
{
    let Some(next) = next else {
        return;
    };
    positions[usize::from(next.pid)] = next.position;
    if next.is_first {
        add(pids, next.pid);
    }
}

// Puts a PID in its place among ascending ones.
fn add(pids: &mut Vec<u16>, pid: u16)
    requires { vec_len pids.old < vec_capacity pids.old }
    ensures value { pids.new.items ≡ put_in pid pids.old.items }
    ensures length { vec_len pids.new ≡ vec_len pids.old + 1 }
    ensures capacity { vec_capacity pids.old ≤ vec_capacity pids.new }
{
    let place = first_above(pids, pid).unwrap_or(pids.len());
    pids.insert(place, pid).unwrap();
}

// Where the first PID above this one stands.
fn first_above(pids: &[u16], pid: u16) -> Option<usize>
    ensures value { result ≡ position (λ other. nat_lt pid other) pids.now }
    ensures within { IfSome result (λ place. place < length pids.now) }
{
    pids.iter().position(|&other| pid < other)
}
