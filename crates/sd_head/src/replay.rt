ghost use Rattle.std.specs.Prelude.{◌≡◌, ◌+◌, ◌*◌, ◌^◌, ◌<◌, ◌≤◌, ◌++◌, ◌∷◌, [], true, List, All, OnOk, length};
ghost use Rattle.sd_book.specs.declared.command.Command.{Command as Commands};
ghost use Rattle.sd_book.specs.declared.command.Command.TheVariants.{Revoke as RevokeOf};
ghost use Rattle.sd_book.specs.Commands.{is_within, revoked_after};
ghost use Rattle.sd_tree_keys.specs.Leaves.{without_leaf};

use sd_base::{NoMemory, Steps};
use sd_book::Command;
use sd_cover_tracing::CoverIndex;
use sd_tree_keys::Leaf;
use std::sync::ledger::Ledger;

/// Takes commands into the index, one after the other.
pub fn replay<L: Ledger>(
    index: &mut CoverIndex,
    commands: &[Command],
    steps: &mut Steps<L>,
) -> Result<(), NoMemory>
    requires { All (λ command. is_within index.old.height command ≡ true) commands.now }
    ensures height { index.new.height ≡ index.old.height }
    ensures value { (before : List Commands) → index.old.revoked ≡ revoked_after index.old.height before →
        OnOk result (index.new.revoked ≡ revoked_after index.old.height (before ++ commands.now)) }
    ensures steps { steps.new ≤ steps.old + length commands.now * (index.old.height + 2) }
{
    for command in commands {
        take(index, *command, steps)?;
    }
    Ok(())
}

// Takes one command into the index.
fn take<L: Ledger>(
    index: &mut CoverIndex,
    command: Command,
    steps: &mut Steps<L>,
) -> Result<(), NoMemory>
    requires { is_within index.old.height command ≡ true }
    ensures height { index.new.height ≡ index.old.height }
    ensures value { (before : List Commands) → index.old.revoked ≡ revoked_after index.old.height before →
        OnOk result (index.new.revoked ≡ revoked_after index.old.height (before ++ command ∷ [])) }
    ensures steps { steps.new ≤ steps.old + (index.old.height + 2) }
{
    match command {
        Command::Subscribe(leaf) => subscribe(index, leaf, steps),
        Command::Revoke(leaf) => revoke(index, leaf, steps)?,
        Command::Period => {}
    }
    Ok(())
}

// Revokes the leaf no more, where it is revoked.
fn subscribe<L: Ledger>(index: &mut CoverIndex, leaf: Leaf, steps: &mut Steps<L>)
    requires { leaf < 2 ^ index.old.height }
    ensures height { index.new.height ≡ index.old.height }
    ensures value { index.new.revoked ≡ without_leaf leaf index.old.revoked }
    ensures steps { steps.new ≤ steps.old + (index.old.height + 2) }
{
    if index.is_revoked(leaf, steps) {
        index.subscribe(leaf, steps);
    }
}

// Revokes the leaf, where it isn't revoked.
fn revoke<L: Ledger>(
    index: &mut CoverIndex,
    leaf: Leaf,
    steps: &mut Steps<L>,
) -> Result<(), NoMemory>
    requires { leaf < 2 ^ index.old.height }
    ensures height { index.new.height ≡ index.old.height }
    ensures value { (before : List Commands) → index.old.revoked ≡ revoked_after index.old.height before →
        OnOk result (index.new.revoked ≡ revoked_after index.old.height (before ++ RevokeOf leaf ∷ [])) }
    ensures steps { steps.new ≤ steps.old + (index.old.height + 2) }
{
    if !index.is_revoked(leaf, steps) {
        index.reserve(1)?;
        index.revoke(leaf, steps);
    }
    Ok(())
}
