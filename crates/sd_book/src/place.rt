ghost use Rattle.std.specs.Prelude.{◌≡◌, ◌+◌, ◌<◌, ◌≤◌, ◌↔◌, List, All, length, true, is_some, if◌then◌else◌, IsNone};
ghost use Rattle.std.specs.Prelude.{IfSome};
ghost use Rattle.sd_book.specs.declared.command.Command.{Command as Commands};
ghost use Rattle.sd_book.specs.declared.limits.TheConstants.{MOST_COMMANDS};
ghost use Rattle.sd_book.specs.Commands.{commands_in, is_within, last_period};
ghost use Rattle.sd_book.specs.Place.{IsPlaceIn, after_period};

use crate::book::Book;
use crate::command::Command;
use crate::periods::until;
use std::marker::Model;

/// A place in a book, where the commands of a period begin, or after them all. Its owner keeps it beside the book.
#[derive(Clone, Copy)]
pub struct Place {
    taken: u32,
    next: u32,
}

impl Model for Place {
    ghost use Rattle.sd_book.specs.Place.{PlaceValue};

    ghost Value = { PlaceValue };

    ghost view = { λ place. record { taken = place.taken; next = place.next } };

    ghost inverse = { λ place. record { taken = place.taken; next = place.next } };
}

impl Place {
    /// The place before period 0 of any book.
    #[tactic(auto, using(crate::proofs::Places::first_place))]
    pub fn new() -> Place
        ensures next { result.next ≡ 0 }
        ensures place { (commands : List Commands) → IsPlaceIn commands result }
    {
        Place { taken: 0, next: 0 }
    }

    /// The number of the period that comes next, which is one more than the last where none does.
    pub fn next_period(&self) -> u32
        ensures { result ≡ self.now.next }
    {
        self.next
    }

    /// The commands of the next period of the book alone, or `None` after the last one. Nothing is allocated.
    pub fn next_commands<'a>(&mut self, book: &'a Book) -> Option<&'a [Command]>
        requires { IsPlaceIn book.now.commands self.old }
        ensures value { IfSome result (λ commands. commands.now ≡ commands_in book.now.commands self.old.next) }
        ensures fits { IfSome result (λ commands.
            All (λ command. is_within book.now.height command ≡ true) commands.now) }
        ensures none { IsNone result ↔ (last_period book.now.commands < self.old.next) }
        ensures next { self.new.next ≡ (if is_some result then self.old.next + 1 else self.old.next) }
        ensures place { IsPlaceIn book.now.commands self.new }
    {
        self.next_in(book.commands())
    }

    /// The commands of the next period of these commands alone, or `None` after the last one.
    pub(crate) fn next_in<'a>(&mut self, commands: &'a [Command]) -> Option<&'a [Command]>
        requires few { length commands.now ≤ MOST_COMMANDS }
        requires place { IsPlaceIn commands.now self.old }
        ensures value { IfSome result (λ period. period.now ≡ commands_in commands.now self.old.next) }
        ensures none { IsNone result ↔ (last_period commands.now < self.old.next) }
        ensures next { self.new.next ≡ (if is_some result then self.old.next + 1 else self.old.next) }
        ensures place { IsPlaceIn commands.now self.new }
    {
        let period = begun(commands, *self)?;
        self.taken += period.len() as u32 + 1;
        self.next += 1;
        Some(period)
    }
}

/// The commands of the period that begins at the place, or `None` after them all.
#[tactic(auto, using(crate::proofs::Places::next_there, crate::proofs::Places::none_there))]
fn begun(commands: &[Command], place: Place) -> Option<&[Command]>
    requires few { length commands.now ≤ MOST_COMMANDS }
    requires place { IsPlaceIn commands.now place }
    ensures value { IfSome result (λ period. period.now ≡ commands_in commands.now place.next) }
    ensures fits { IfSome result (λ period. place.taken + length period.now ≤ MOST_COMMANDS) }
    ensures none { IsNone result ↔ (last_period commands.now < place.next) }
    ensures place { IfSome result (λ period. IsPlaceIn commands.now (after_period place (length period.now))) }
{
    let taken = place.taken as usize;
    if taken > commands.len() {
        return None;
    }
    Some(until(&commands[taken..], 0))
}
