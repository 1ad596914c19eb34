ghost use Rattle.std.specs.Prelude.{◌≡◌, ◌<◌, ◌≤◌, IfOk, length, map, option_map, slice_get, string_bytes};
ghost use Rattle.std.specs.Prelude.{◌-◌};
ghost use Rattle.sd_command_base.specs.Shown.{shown_number, shown_word};
ghost use Rattle.sd_command_line.specs.Orders.{all_said, argument_said, arguments_said, one_said};
ghost use Rattle.sd_command_line.specs.Words.{argument_of, arguments_from, nonzero_count, file, number, number_of_word};

use crate::{Kind, Operand};
use arrayvec::ArrayVec;
use sd_base::number_after;
use sd_command_base::{Number, Status, Word};

/// What an argument says.
#[derive(Clone, Copy)]
pub enum Argument<'a> {
    /// A file that is read.
    Input(&'a str),
    /// The file that is made.
    Output(&'a str),
    /// A number.
    Number(u32),
}

impl Default for Argument<'_> {
    fn default() -> Self {
        Argument::Number(0)
    }
}

/// The arguments of a command.
#[derive(Drop)]
pub struct Arguments<'a> {
    list: ArrayVec<Argument<'a>, 4>,
}

impl<'a> Arguments<'a> {
    /// The arguments that these texts say, by their operands.
    pub fn read(operands: &[Operand], texts: &'a [String]) -> Result<Arguments<'a>, Status>
        requires one_each { length operands.now ≡ length texts.now }
        requires few { length operands.now ≤ 4 }
        ensures { arguments_from 1 operands.now (map string_bytes texts.now) ≡ all_said result }
    {
        let mut list = ArrayVec::new();
        for index in 0..operands.len() {
            let place = index as u8 + 1;
            match read_argument(place, operands[index].kind(), texts[index].as_str()) {
                Ok(argument) => list.push(argument),
                Err(status) => return Err(status),
            }
        }
        Ok(Arguments { list })
    }

    /// The file of the argument at this place, counted from 1.
    pub fn file(&self, place: u8) -> Word<'a>
        requires { 0 < place }
        ensures value { shown_word result ≡ file place (arguments_said 1 self.now.list.items) }
        ensures number { result.number ≡ place }
    {
        match self.argument(place) {
            Some(Argument::Input(text)) => Word::at(place, text),
            Some(Argument::Output(text)) => Word::at(place, text),
            _ => Word::at(place, ""),
        }
    }

    /// The number of the argument at this place, counted from 1.
    pub fn number(&self, place: u8) -> Number
        requires { 0 < place }
        ensures value { shown_number result ≡ number place (arguments_said 1 self.now.list.items) }
    {
        match self.argument(place) {
            Some(Argument::Number(value)) => Number { word: place, value },
            _ => Number {
                word: place,
                value: 0,
            },
        }
    }

    /// The argument at this place, counted from 1.
    fn argument(&self, place: u8) -> Option<Argument<'a>>
        requires { 0 < place }
        ensures { option_map (argument_said place) result
            ≡ slice_get (arguments_said 1 self.now.list.items) (place - 1) }
    {
        match self.list.get(usize::from(place) - 1) {
            Some(argument) => Some(*argument),
            None => None,
        }
    }
}

/// The argument of this kind.
fn read_argument<'a>(place: u8, kind: Kind, text: &'a str) -> Result<Argument<'a>, Status>
    ensures { argument_of place kind text.now ≡ one_said place result }
{
    match kind {
        Kind::Input => Ok(Argument::Input(text)),
        Kind::Output => Ok(Argument::Output(text)),
        Kind::Number(most) => match read_number(place, text, most) {
            Ok(value) => Ok(Argument::Number(value)),
            Err(status) => Err(status),
        },
        Kind::Count(most) => match read_count(place, text, most) {
            Ok(value) => Ok(Argument::Number(value)),
            Err(status) => Err(status),
        },
    }
}

/// The number of this word, which must be at least 1 and at most the greatest.
fn read_count(word: u8, text: &str, most: u32) -> Result<u32, Status>
    ensures { result ≡ nonzero_count word (number_of_word word most text.now) }
{
    match read_number(word, text, most) {
        Ok(0) => Err(Status::BadWord(word)),
        Ok(number) => Ok(number),
        Err(status) => Err(status),
    }
}

/// The number of this word, which must be at most the greatest.
fn read_number(word: u8, text: &str, most: u32) -> Result<u32, Status>
    ensures value { result ≡ number_of_word word most text.now }
    ensures fits { IfOk result (λ number. number ≤ most) }
{
    match number_after(b"", text.as_bytes()) {
        Ok(number) if number <= most => Ok(number),
        _ => Err(Status::BadWord(word)),
    }
}
