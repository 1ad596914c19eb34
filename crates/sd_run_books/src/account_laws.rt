//! The faults of accounts.

ghost use Rattle.std.specs.Prelude.{◌≡◌, ℕ, List, Option};
ghost use Rattle.sd_book.specs.declared.command.Command.{Command as Commands};
ghost use Rattle.sd_book.specs.Limits.{IsWithinLimits};
ghost use Rattle.sd_run_books.specs.declared.account_fault.AccountFault.{AccountFault as Faults};
ghost use Rattle.sd_run_books.specs.Faults.{AreGoodAccountLines, IsAccountFaultOf};
ghost use Rattle.sd_run_books.specs.Line.{Entry};

/// Lines have one fault at most, and none if they are good and their commands within the limits of a book.
pub fn causes_are_one()
    ensures one { (d : ℕ) (said : List (Option Entry)) (a b : Faults) →
        IsAccountFaultOf d said a → IsAccountFaultOf d said b → a ≡ b }
    ensures none { (d : ℕ) (said : List (Option Entry)) (commands : List Commands) (fault : Faults) →
        AreGoodAccountLines d said commands → IsWithinLimits d commands → ¬ IsAccountFaultOf d said fault }
{}
