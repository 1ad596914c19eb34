ghost use Rattle.std.specs.Prelude.{◌≡◌, ◌≤◌, length};
ghost use Rattle.sd_book.specs.Commands.{commands_until, last_period};

use crate::command::Command;
use crate::limits::MOST_COMMANDS;

/// The number of the last period of these commands, counted from 0.
pub fn last_period(commands: &[Command]) -> u32
    requires { length commands.now ≤ MOST_COMMANDS }
    ensures { result ≡ last_period commands.now }
{
    commands
        .iter()
        .filter(|command| **command == Command::Period)
        .count() as u32
}

/// The commands that decide period q.
pub(crate) fn until(commands: &[Command], q: u32) -> &[Command]
    ensures { result.now ≡ commands_until q commands.now }
{
    let mut period = 0;
    for (i, command) in commands.iter().enumerate() {
        if *command == Command::Period {
            if period == q {
                return &commands[..i];
            }
            period += 1;
        }
    }
    commands
}
