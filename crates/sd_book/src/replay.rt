ghost use Rattle.std.specs.Prelude.{◌≡◌, ◌≤◌, ◌<◌, ◌^◌, ◌+◌, ◌++◌, ◌∷◌, [], ◌↔◌, ℕ, true, List, All, length, is_some};
ghost use Rattle.std.specs.Prelude.{if◌then◌else◌, take as take_of, IfOk, IfSome, OnOk, OnErr, IsNone};
ghost use Rattle.std.specs.List.Sorted.{IsStrictlyIncreasing};
ghost use Rattle.sd_tree_keys.specs.declared.leaf.TheConstants.{MOST_REVOKED};
ghost use Rattle.sd_book.specs.declared.command.Command.{Command as Commands};
ghost use Rattle.sd_book.specs.Commands.{is_within, last_period, revoked as revoked_in, revoked_after};
ghost use Rattle.sd_book.specs.Limits.{IsWithinLimits};
ghost use Rattle.sd_book.specs.Place.{IsPlaceIn};
ghost use Rattle.sd_book.specs.Replay.{IsReplay};

use crate::command::Command;
use crate::place::Place;
use sd_base::NoMemory;
use sd_tree_keys::{Height, Leaf};
use std::alloc::Global;
use std::collections::BTreeSet;
use std::marker::Model;

/// A replay of a book, one period after the other, which takes each command once unless memory runs out.
#[derive(Drop)]
pub struct Periods<'a> {
    height: Height,
    commands: &'a [Command],
    place: Place,
    revoked: BTreeSet<Leaf>,
}

impl<'a> Model for Periods<'a> {
    ghost use Rattle.sd_book.specs.Replay.{ReplayValue};

    ghost Value = { ReplayValue };

    ghost use Rattle.sd_book.specs.Limits.{IsWithinLimits};
    ghost use Rattle.sd_book.specs.Place.{IsPlaceIn};
    ghost use Rattle.sd_book.specs.Replay.{IsReplay};

    ghost view = { λ p. record { height = p.height; commands = p.commands.now; next = p.place.next } };

    ghost invariant = { λ p. IsWithinLimits p.height p.commands.now × IsPlaceIn p.commands.now p.place
        × IsReplay p.height p.commands.now p.place.next p.revoked.keys };
}

impl<'a> Periods<'a> {
    /// A replay that has taken no command. Nothing is allocated.
    #[tactic(auto, using(crate::proofs::Replays::none_taken))]
    pub(crate) fn new(alloc: Global, height: Height, commands: &'a [Command]) -> Periods<'a>
        requires { IsWithinLimits height commands.now }
        ensures height { result.height ≡ height }
        ensures commands { result.commands ≡ commands.now }
        ensures next { result.next ≡ 0 }
    {
        Periods {
            height,
            commands,
            place: Place::new(),
            revoked: BTreeSet::new(alloc),
        }
    }

    /// The leaves that are revoked in the next period, ascending, each once, or `None` after the last period.
    ///
    /// After a fault the period is still the next one.
    pub fn next(&mut self, alloc: Global) -> Result<Option<Vec<Leaf>>, NoMemory>
        ensures height { self.new.height ≡ self.old.height }
        ensures commands { self.new.commands ≡ self.old.commands }
        ensures next { IfOk result (λ found.
            self.new.next ≡ (if is_some found then self.old.next + 1 else self.old.next)) }
        ensures end { IfOk result (λ found. IsNone found ↔ (last_period self.old.commands < self.old.next)) }
        ensures value { IfOk result (λ found. IfSome found (λ leaves.
            leaves.items ≡ revoked_in self.old.height self.old.commands self.old.next)) }
        ensures fits { IfOk result (λ found. IfSome found (λ leaves. length leaves.items ≤ MOST_REVOKED)) }
        ensures below { IfOk result (λ found. IfSome found (λ leaves.
            All (λ leaf. leaf < 2 ^ self.old.height) leaves.items)) }
        ensures ascending { IfOk result (λ found. IfSome found (λ leaves. IsStrictlyIncreasing leaves.items)) }
        ensures unchanged { OnErr result (self.new ≡ self.old) }
    {
        let mut place = self.place;
        let Some(commands) = place.next_in(self.commands) else {
            return Ok(None);
        };
        take_all(&mut self.revoked, commands)?;
        let leaves = listed(alloc, &self.revoked)?;
        self.place = place;
        Ok(Some(leaves))
    }
}

/// The leaves that are revoked after these commands, ascending, each once. They may be more than a book may have: the
/// period that the commands end in is not judged.
pub fn revoked_by(alloc: Global, commands: &[Command]) -> Result<Vec<Leaf>, NoMemory>
    ensures { (d : ℕ) → All (λ command. is_within d command ≡ true) commands.now →
        IfOk result (λ leaves. leaves.items ≡ revoked_after d commands.now) }
{
    let mut revoked = BTreeSet::new(alloc);
    take_all(&mut revoked, commands)?;
    listed(alloc, &revoked)
}

/// Takes these commands into the revoked leaves, or some of them where memory runs out.
#[tactic(auto, using(crate::proofs::Replays::one_taken))]
fn take_all(revoked: &mut BTreeSet<Leaf>, commands: &[Command]) -> Result<(), NoMemory>
    ensures value { (d : ℕ) (before : List Commands) → revoked.old.keys ≡ revoked_after d before →
        All (λ command. is_within d command ≡ true) commands.now →
        OnOk result (revoked.new.keys ≡ revoked_after d (before ++ commands.now)) }
    ensures fault { (d : ℕ) (before : List Commands) → revoked.old.keys ≡ revoked_after d before →
        All (λ command. is_within d command ≡ true) commands.now →
        (count : ℕ) × (revoked.new.keys ≡ revoked_after d (before ++ take_of count commands.now)) }
{
    for command in commands {
        take(revoked, command)?;
    }
    Ok(())
}

/// Takes one more command into the revoked leaves.
#[tactic(auto, using(crate::proofs::Kept::kept_subscribe, crate::proofs::Kept::kept_revoke, crate::proofs::Kept::kept_period))]
fn take(revoked: &mut BTreeSet<Leaf>, command: &Command) -> Result<(), NoMemory>
    ensures value { (d : ℕ) (commands : List Commands) → revoked.old.keys ≡ revoked_after d commands →
        is_within d command.now ≡ true →
        OnOk result (revoked.new.keys ≡ revoked_after d (commands ++ command.now ∷ [])) }
    ensures unchanged { OnErr result (revoked.new.keys ≡ revoked.old.keys) }
{
    match *command {
        Command::Subscribe(leaf) => {
            revoked.remove(&leaf);
        }
        Command::Revoke(leaf) => {
            revoked.insert(leaf)?;
        }
        Command::Period => {}
    }
    Ok(())
}

/// The leaves of a set, ascending.
fn listed(alloc: Global, leaves: &BTreeSet<Leaf>) -> Result<Vec<Leaf>, NoMemory>
    ensures { IfOk result (λ list. list.items ≡ leaves.now.keys) }
{
    Ok(leaves.iter().copied().collect(alloc)?)
}
