//! What books come to, for crates that make them longer and write them.

ghost use Rattle.std.specs.Prelude.{◌≡◌, ◌<◌, ◌≤◌, ◌+◌, ◌++◌, ◌∷◌, ℕ, List, All, Option, Some, Ok, [], map, filter};
ghost use Rattle.std.specs.Prelude.{not, true, length, ◌*◌, ◌^◌};
ghost use Rattle.sd_base.specs.Lines.{lines_of};
ghost use Rattle.sd_book.specs.declared.command.Command.{Command as Commands};
ghost use Rattle.sd_book.specs.declared.fault.BookFault.{BookFault as Faults};
ghost use Rattle.sd_tree_keys.specs.Leaves.{leaves};
ghost use Rattle.sd_book.specs.Commands.{after_command, after_commands, commands_in, commands_until, entitled};
ghost use Rattle.sd_book.specs.Commands.{is_revoked, is_within, last_period, revoked, revoked_after};
ghost use Rattle.sd_book.specs.Faults.{IsBookFaultOf};
ghost use Rattle.sd_book.specs.Limits.{IsWithinLimits};
ghost use Rattle.sd_book.specs.Text.{SpellsBook, book_of, book_commands, text_of_book};

/// Lines have one fault at most, and none where they say commands within the limits.
pub fn causes_are_one()
    ensures one { (d : ℕ) (said : List (Option Commands)) (a b : Faults) →
        IsBookFaultOf d said a → IsBookFaultOf d said b → a ≡ b }
    ensures none { (d : ℕ) (commands : List Commands) (fault : Faults) → IsWithinLimits d commands →
        ¬ IsBookFaultOf d (map Some commands) fault }
{}

/// A book file has at most 18,874,368 bytes.
pub fn books_are_short()
    ensures { (d : ℕ) (bytes : List ℕ) (commands : List Commands) → d ≤ 20 → SpellsBook (lines_of bytes) commands →
        IsWithinLimits d commands → length bytes ≤ 18 * 2 ^ 20 }
{}

/// What is written of commands is judged as they are, and where they are within the limits, is read as them.
#[tactic(auto, using(sd_book::proofs::Written::judged_again, sd_book::proofs::Written::read_again))]
pub fn written_is_read()
    ensures value { (d : ℕ) (commands : List Commands) → d ≤ 20 → All (λ command. is_within d command ≡ true) commands →
        book_of d (text_of_book commands) ≡ book_commands d [] (map Some commands) }
    ensures ok { (d : ℕ) (commands : List Commands) → d ≤ 20 → IsWithinLimits d commands →
        book_of d (text_of_book commands) ≡ Ok commands }
{}

/// The leaves that are revoked in a period follow from those of the period before, command by command.
pub fn revoked_follow()
    ensures first { (d : ℕ) (commands : List Commands) →
        revoked d commands 0 ≡ after_commands d [] (commands_in commands 0) }
    ensures next { (d q : ℕ) (commands : List Commands) → q < last_period commands →
        revoked d commands (q + 1) ≡ after_commands d (revoked d commands q) (commands_in commands (q + 1)) }
    // One step of it: with one more command.
    ensures step { (d : ℕ) (commands : List Commands) (command : Commands) →
        after_command d (revoked_after d commands) command ≡ revoked_after d (commands ++ command ∷ []) }
{}

/// A period above the last one has the revoked leaves of the last one.
#[tactic(auto, using(sd_book::proofs::Cuts::revoked_past))]
pub fn later_periods_are_the_last()
    ensures { (d q : ℕ) (commands : List Commands) → last_period commands ≤ q →
        revoked d commands q ≡ revoked d commands (last_period commands) }
{}

/// A leaf of the tree is entitled in a period where the last command on it is no revoke, or there is none.
#[tactic(auto, using(sd_book::proofs::Followed::entitled_is))]
pub fn entitled_are_unrevoked()
    ensures { (d : ℕ) (commands : List Commands) (q : ℕ) →
        entitled d commands q ≡ filter (λ u. not (is_revoked (commands_until q commands) u)) (leaves d) }
{}
