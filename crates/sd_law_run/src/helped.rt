//! What help says of the program, against the program.

ghost use Rattle.std.specs.Prelude.{◌≡◌, take};
ghost use Rattle.sd_command_line.specs.declared.command.Command.{Command};
ghost use Rattle.sd_command_line.specs.declared.operand.Files.{Files};
ghost use Rattle.sd_command_line.specs.Exits.{exit_line};
ghost use Rattle.sd_command_base.specs.Exits.{code_of};
ghost use Rattle.sd_command_base.specs.declared.status.Status.{Status};
ghost use Rattle.sd_law_run.specs.Helped.{help_exit, in_column, IsOrdered};

/// The line of each exit begins with the number of its status, whatever files a command has. The example of each
/// command has arguments that the program takes for that command.
#[tactic(auto, using(crate::proofs::Examples::exit_numbers, crate::proofs::Examples::examples_are_ordered))]
pub fn help_is_of_the_program()
    ensures exits { (files : Files) (status : Status) →
        take 4 (exit_line files (help_exit status)) ≡ in_column (code_of status) }
    ensures examples { (command : Command) → IsOrdered command }
{}
