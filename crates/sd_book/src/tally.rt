ghost use Rattle.std.specs.Prelude.{◌≡◌, ◌<◌, ◌≤◌, ◌^◌, true, [], ◌∷◌, ◌++◌, List, All, IfOk, slice_set, vec_len};
ghost use Rattle.std.specs.Prelude.{count_by, nat_le, Ok, Err};
ghost use Rattle.sd_book.specs.declared.command.Command.{Command as Commands};
ghost use Rattle.sd_book.specs.declared.limits.TheConstants.{MOST_PERIODS};
ghost use Rattle.sd_book.specs.Commands.{is_within, last_period, revoked_after};
ghost use Rattle.sd_book.specs.Tally.{IsTally, marked_from};
ghost use Rattle.sd_book.specs.Text.{period_end_check};

use crate::command::Command;
use crate::fault::{BookFault, BookLimit};
use crate::limits::MOST_PERIODS;
use sd_tree_keys::{Height, Leaf, MOST_REVOKED};
use std::alloc::{AllocError, Global};

/// What some commands come to: the leaves that are revoked after them, and the period that they end in.
#[derive(Drop)]
pub(crate) struct Tally {
    height: Height,
    marks: Vec<bool>,
    revoked: u32,
    period: u32,
    ghost full: { vec_len marks ≡ 2 ^ height },
    ghost small: { height ≤ 20 },
    ghost counted: { revoked ≡ count_by (λ mark. mark) marks.items },
}

impl Tally {
    /// The tally of no command.
    #[tactic(auto, using(crate::proofs::Tallies::tally_of_none, crate::proofs::Tallies::none_marked))]
    pub(crate) fn new(alloc: Global, h: Height) -> Result<Tally, AllocError>
        ensures height { IfOk result (λ tally. tally.height ≡ h) }
        ensures tally { IfOk result (λ tally. IsTally h [] tally.marks.items tally.revoked tally.period) }
    {
        Ok(Tally {
            height: h,
            marks: vec![in alloc; false; h.leaves() as usize]?,
            revoked: 0,
            period: 0,
        })
    }

    /// The tally of these commands.
    pub(crate) fn of(alloc: Global, h: Height, commands: &[Command]) -> Result<Tally, AllocError>
        requires leaves { All (λ command. is_within h command ≡ true) commands.now }
        requires periods { last_period commands.now ≤ MOST_PERIODS }
        ensures height { IfOk result (λ tally. tally.height ≡ h) }
        ensures tally { IfOk result (λ tally. IsTally h commands.now tally.marks.items tally.revoked tally.period) }
    {
        let mut tally = Tally::new(alloc, h)?;
        for command in commands {
            tally.take(command);
        }
        Ok(tally)
    }

    /// Takes one more command.
    pub(crate) fn take(&mut self, command: &Command)
        requires leaf { is_within self.old.height command.now ≡ true }
        requires period { self.old.period ≤ MOST_PERIODS }
        ensures height { self.new.height ≡ self.old.height }
        ensures tally { (commands : List Commands) →
            IsTally self.old.height commands self.old.marks.items self.old.revoked self.old.period →
            IsTally self.old.height (commands ++ command.now ∷ [])
            self.new.marks.items self.new.revoked self.new.period }
    {
        match *command {
            Command::Subscribe(leaf) => self.mark(leaf, false),
            Command::Revoke(leaf) => self.mark(leaf, true),
            Command::Period => self.period += 1,
        }
    }

    /// Writes a leaf's mark. A mark that stands already counts once.
    fn mark(&mut self, leaf: Leaf, mark: bool)
        requires { leaf < 2 ^ self.old.height }
        ensures height { self.new.height ≡ self.old.height }
        ensures marks { self.new.marks.items ≡ slice_set self.old.marks.items leaf mark }
        ensures period { self.new.period ≡ self.old.period }
    {
        let u = leaf.get() as usize;
        self.revoked += u32::from(mark);
        self.revoked -= u32::from(self.marks[u]);
        self.marks[u] = mark;
    }

    /// The height of the tree.
    pub(crate) fn height(&self) -> Height
        ensures { result ≡ self.now.height }
    {
        self.height
    }

    /// Whether the period may end here.
    #[tactic(auto, using(crate::proofs::Tallies::end_by_tally, crate::proofs::Tallies::crowd_by_tally))]
    pub(crate) fn may_end(&self) -> Result<(), BookFault>
        ensures { (commands : List Commands) →
            IsTally self.now.height commands self.now.marks.items self.now.revoked self.now.period →
            period_end_check self.now.height commands tt ≡ result }
    {
        if self.revoked as usize > MOST_REVOKED {
            return Err(BookFault::Limit(BookLimit::Revoked(self.period)));
        }
        Ok(())
    }

    /// Whether this is the last period that a book may have.
    pub(crate) fn is_last(&self) -> bool
        ensures { result ≡ nat_le MOST_PERIODS self.now.period }
    {
        self.period >= MOST_PERIODS
    }

    /// The leaves that are revoked, ascending.
    pub(crate) fn leaves(&self, alloc: Global) -> Result<Vec<Leaf>, AllocError>
        ensures { IfOk result (λ leaves. leaves.items ≡ marked_from 0 self.now.marks.items) }
    {
        let mut leaves = Vec::new(alloc);
        for u in 0..self.height.leaves() {
            if let Some(leaf) = Leaf::new(self.height, u) {
                if self.marks[u as usize] {
                    leaves.push(leaf)?;
                }
            }
        }
        Ok(leaves)
    }
}

/// The leaves that are revoked after these commands, ascending.
#[tactic(auto, using(crate::proofs::Tallies::tally_leaves))]
pub(crate) fn revoked_after(
    alloc: Global,
    h: Height,
    commands: &[Command],
) -> Result<Vec<Leaf>, AllocError>
    requires leaves { All (λ command. is_within h command ≡ true) commands.now }
    requires periods { last_period commands.now ≤ MOST_PERIODS }
    ensures { IfOk result (λ leaves. leaves.items ≡ revoked_after h commands.now) }
{
    Tally::of(alloc, h, commands)?.leaves(alloc)
}
