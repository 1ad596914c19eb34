ghost use Rattle.std.specs.Prelude.{◌≡◌, ◌<◌, ◌⊎◌, ℕ, List, [], true, false, IfOk, OnOk, Ok, Err, Some};
ghost use Rattle.std.specs.Prelude.{MatchResult};
ghost use Rattle.std.specs.Prelude.{slice_set, vec_len};
ghost use Rattle.std.specs.BTreeMap.{IsOrdered};
ghost use Rattle.sd_run_books.specs.Judged.{command_by};
ghost use Rattle.sd_run_books.specs.Kept.{IsBelow, AreAccountsKept, leaf_of_name_after, leaf_named, marks_after};
ghost use Rattle.sd_run_books.specs.Kept.{mark_of, name_cmp};
ghost use Rattle.sd_run_books.specs.Line.{Assigns};
ghost use Rattle.sd_run_books.specs.Read.{line_entry};

use crate::account_fault::AccountFault;
use crate::account_line::Line;
use crate::account_name::Name;
use sd_book::Command;
use sd_tree_keys::{Height, Leaf};
use std::alloc::{AllocError, Global};
use std::collections::BTreeMap;

/// The names so far with their leaves, and a mark for each leaf that is bound.
#[derive(Drop)]
pub(crate) struct Names {
    leaves: BTreeMap<Name, Leaf>,
    marks: Vec<bool>,
}

impl Names {
    /// No name.
    #[tactic(auto, using(crate::proofs::Kept::kept_none))]
    pub(crate) fn new(alloc: Global, h: Height) -> Result<Names, AllocError>
        ensures kept { IfOk result (λ names. AreAccountsKept h [] (leaf_named names.leaves) names.marks.items) }
    {
        Ok(Names {
            leaves: BTreeMap::new(alloc),
            marks: vec![in alloc; false; h.leaves() as usize]?,
        })
    }

    /// The command that line k makes. A name that it assigns is bound.
    pub(crate) fn command(&mut self, line: Line, k: u32) -> Result<Command, AccountFault>
        requires leaf { IsBelow (vec_len self.old.marks) (line_entry line) }
        ensures value { MatchResult result
            (λ command.
            command_by (leaf_named self.old.leaves) (mark_of self.old.marks.items) k (Some (line_entry line))
            ≡ Ok command)
            (λ fault. (fault ≡ AccountFault.NoMemory) ⊎
            (command_by (leaf_named self.old.leaves) (mark_of self.old.marks.items) k (Some (line_entry line))
            ≡ Err fault)) }
        ensures leaves { OnOk result ((name : List ℕ) →
            leaf_named self.new.leaves name ≡ leaf_of_name_after (line_entry line) (leaf_named self.old.leaves) name) }
        ensures marks { OnOk result (self.new.marks.items ≡ marks_after (line_entry line) self.old.marks.items) }
    {
        match line {
            Line::Assign(name, leaf) => self.assign(name, leaf, k),
            Line::Drop(name) => Ok(Command::Revoke(self.known(name, k)?)),
            Line::Restore(name) => Ok(Command::Subscribe(self.known(name, k)?)),
            Line::Period => Ok(Command::Period),
        }
    }

    /// The leaves of the names, which ascend by name.
    pub(crate) fn into_leaves(self) -> BTreeMap<Name, Leaf>
        ensures value { result ≡ self.leaves }
        ensures ordered { IsOrdered name_cmp result }
    {
        prove!(self.leaves.len() < usize::MAX);
        self.leaves
    }

    /// The leaf of the name on line k.
    fn known(&self, name: Name, k: u32) -> Result<Leaf, AccountFault>
        ensures { MatchResult result (λ leaf. leaf_named self.now.leaves name.bytes ≡ Some leaf)
            (λ fault. (fault ≡ AccountFault.Unknown k) × (leaf_named self.now.leaves name.bytes ≡ None)) }
    {
        self.leaves
            .get(&name)
            .copied()
            .ok_or(AccountFault::Unknown(k))
    }

    /// Binds the name on line k to the leaf, if both are free.
    fn assign(&mut self, name: Name, leaf: Leaf, k: u32) -> Result<Command, AccountFault>
        requires leaf { leaf < vec_len self.old.marks }
        ensures value { MatchResult result
            (λ command. command_by (leaf_named self.old.leaves) (mark_of self.old.marks.items) k
            (Some (Assigns name.bytes leaf)) ≡ Ok command)
            (λ fault. (fault ≡ AccountFault.NoMemory) ⊎
            (command_by (leaf_named self.old.leaves) (mark_of self.old.marks.items) k
            (Some (Assigns name.bytes leaf)) ≡ Err fault)) }
        ensures leaves { OnOk result ((other : List ℕ) →
            leaf_named self.new.leaves other
            ≡ leaf_of_name_after (Assigns name.bytes leaf) (leaf_named self.old.leaves) other) }
        ensures marks { OnOk result (self.new.marks.items ≡ slice_set self.old.marks.items leaf true) }
    {
        if self.marks[leaf.get() as usize] {
            return Err(AccountFault::Taken(k));
        }
        if self.leaves.insert(name, leaf)?.is_some() {
            return Err(AccountFault::Taken(k));
        }
        self.marks[leaf.get() as usize] = true;
        Ok(Command::Subscribe(leaf))
    }
}
