ghost use Rattle.std.specs.Prelude.{◌≡◌};

/// An argument that names a file, and its number among the arguments after the program's name, counted from 0.
#[derive(Clone, Copy)]
pub struct Word<'a> {
    /// The argument's number, from 0, the command.
    pub number: u8,
    /// The argument's text, a file's name.
    pub text: &'a str,
}

impl<'a> Word<'a> {
    /// The word of this number and text.
    pub fn at(number: u8, text: &'a str) -> Word<'a>
        ensures number { result.number ≡ number }
        ensures text { result.text.now ≡ text.now }
    {
        Word { number, text }
    }
}

/// A numeric argument: its number among the arguments, and its value.
#[derive(Clone, Copy)]
pub struct Number {
    /// The number of the argument, from 0, the command.
    pub word: u8,
    /// The number that the argument says.
    pub value: u32,
}
