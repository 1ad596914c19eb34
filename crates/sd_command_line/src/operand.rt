ghost use Rattle.std.specs.Prelude.{◌≡◌};
ghost use Rattle.std.specs.List.{list_any};
ghost use Rattle.sd_command_line.specs.Operands.{is_file as kind_is_file, is_input as kind_is_input};
ghost use Rattle.sd_command_line.specs.Operands.{is_output as kind_is_output, files_among, operand_kind};
ghost use Rattle.sd_command_line.specs.Operands.{meaning_of, operand_name};
ghost use Rattle.sd_command_line.specs.Exits.{refuses_operand as argument_refuses};

use crate::exit::Exit;

/// What an argument is.
#[derive(Clone, Copy, PartialEq, Eq)]
pub enum Kind {
    /// A file that is read.
    Input,
    /// The file that is made.
    Output,
    /// A number that is at most this.
    Number(u32),
    /// A number that is at least 1 and at most this.
    Count(u32),
}

impl Kind {
    /// Whether an argument of this kind is a file.
    pub fn is_file(self) -> bool
        ensures { result ≡ kind_is_file self }
    {
        self.is_input() || self.is_output()
    }

    /// Whether it is a file that is read.
    fn is_input(self) -> bool
        ensures { result ≡ kind_is_input self }
    {
        matches!(self, Kind::Input)
    }

    /// Whether it is the file that is made.
    fn is_output(self) -> bool
        ensures { result ≡ kind_is_output self }
    {
        matches!(self, Kind::Output)
    }
}

/// The files that the arguments of a command name.
#[derive(Clone, Copy)]
pub enum Files {
    /// Files that are read.
    Inputs,
    /// The file that is made.
    Output,
    /// Files that are read, and the file that is made.
    Both,
}

impl Files {
    /// The files that arguments name.
    pub(crate) fn among(operands: &[Operand]) -> Files
        ensures { result ≡ files_among operands.now }
    {
        match (has_input(operands), has_output(operands)) {
            (_, false) => Files::Inputs,
            (false, true) => Files::Output,
            (true, true) => Files::Both,
        }
    }
}

/// Whether an argument is a file that is read.
fn has_input(operands: &[Operand]) -> bool
    ensures { result ≡ list_any (λ operand. kind_is_input (operand_kind operand)) operands.now }
{
    operands.iter().any(|operand| operand.kind().is_input())
}

/// Whether an argument is the file that is made.
pub(crate) fn has_output(operands: &[Operand]) -> bool
    ensures { result ≡ list_any (λ operand. kind_is_output (operand_kind operand)) operands.now }
{
    operands.iter().any(|operand| operand.kind().is_output())
}

/// Whether the program may end with this exit because one of the arguments is refused.
pub(crate) fn any_refuses(operands: &[Operand], exit: Exit) -> bool
    ensures { result ≡ list_any (λ operand. argument_refuses operand exit) operands.now }
{
    operands.iter().any(|operand| operand.refuses(exit))
}

/// An argument that a command takes.
#[derive(Clone, Copy)]
pub enum Operand {
    /// SITE, the site file.
    Site,
    /// BOOK, the file of the revocation log.
    Book,
    /// ACCOUNTS, the file of the subscriber accounts.
    Accounts,
    /// COMMANDS, a file of commands to append to BOOK.
    Commands,
    /// CLEAR, a clear transport stream.
    Clear,
    /// CLEAR of `air`, a clear transport stream of which packets that cannot be sent are left out.
    Live,
    /// SCRIPT, the file of the events of a field.
    Script,
    /// STREAM, a transport stream.
    Stream,
    /// CARD, a receiver's card.
    Card,
    /// LEAVES, a file with one leaf per line, ascending.
    Leaves,
    /// LEAF, a receiver's number, from 0 to 2^height - 1.
    Leaf,
    /// WIDTH, the width of the layers, from 1 to the height.
    Width,
    /// NUMBER, the seed of a sample, below 2^32.
    Number,
    /// PACKETS of `sample`, at most 1,000,000.
    Packets,
    /// PACKETS of `plan`, from 1 to 2^32 - 1, for which the control words of SITE suffice.
    Clears,
    /// PIDS, the number of PIDs that have positions, at most 256.
    Pids,
    /// WORDS, a number of control words, from 1 to 2^32 - 1, for which the numbers above those of SITE suffice.
    Words,
    /// OUT of `next` and `twin`, a site file that must be new, and whose name follows that of SITE.
    NewSite,
    /// OUT, the output file.
    Out,
}

impl Operand {
    /// The argument's name in help, in capital letters.
    #[tactic(auto, unfolding(crate::specs::Operands::operand_name))]
    pub fn name(self) -> &'static str
        ensures { result.now ≡ operand_name self }
    {
        match self {
            Operand::Site => "SITE",
            Operand::Book => "BOOK",
            Operand::Accounts => "ACCOUNTS",
            Operand::Commands => "COMMANDS",
            Operand::Clear | Operand::Live => "CLEAR",
            Operand::Script => "SCRIPT",
            Operand::Stream => "STREAM",
            Operand::Card => "CARD",
            Operand::Leaves => "LEAVES",
            Operand::Leaf => "LEAF",
            Operand::Width => "WIDTH",
            Operand::Number => "NUMBER",
            Operand::Packets | Operand::Clears => "PACKETS",
            Operand::Pids => "PIDS",
            Operand::Words => "WORDS",
            Operand::NewSite | Operand::Out => "OUT",
        }
    }

    /// The argument's kind: an input, the output, or a number and its range.
    pub fn kind(self) -> Kind
        ensures { result ≡ operand_kind self }
    {
        match self {
            Operand::Site
            | Operand::Book
            | Operand::Accounts
            | Operand::Commands
            | Operand::Clear
            | Operand::Live
            | Operand::Script
            | Operand::Stream
            | Operand::Card
            | Operand::Leaves => Kind::Input,
            Operand::Leaf | Operand::Width | Operand::Number => Kind::Number(u32::MAX),
            Operand::Packets => Kind::Number(1_000_000),
            Operand::Clears | Operand::Words => Kind::Count(u32::MAX),
            Operand::Pids => Kind::Number(256),
            Operand::NewSite | Operand::Out => Kind::Output,
        }
    }

    /// What help says of the argument.
    #[tactic(auto, unfolding(crate::specs::Operands::meaning_of))]
    pub fn meaning(self) -> &'static str
        ensures { result.now ≡ meaning_of self }
    {
        match self {
            Operand::Site =>
                "the site file: height, master, PIDs, period lengths, messages, control words, first period, book",
            Operand::Book =>
                "the book: one command per line, subscribe LEAF, revoke LEAF or period",
            Operand::Accounts => {
                "the accounts: one change per line, assign NAME LEAF, drop NAME, restore NAME or period"
            }
            Operand::Commands => "the commands to append to BOOK, in the form of a book",
            Operand::Clear => "a clear transport stream; /dev/stdin for a pipe",
            Operand::Live => {
                "a live clear transport stream, of which bad packets are left out; /dev/stdin for a pipe"
            }
            Operand::Script => {
                "the events: lines send N, offer LEAF N, lose LEAF N, off LEAF, on LEAF, subscribe LEAF or revoke LEAF"
            }
            Operand::Stream => "a transport stream; /dev/stdin for a pipe",
            Operand::Card => "the card of a receiver, made by the command card",
            Operand::Leaves => "the coalition: one leaf per line, ascending",
            Operand::Leaf => "the receiver's number, from 0 to 2^height - 1",
            Operand::Width => "the width of the layers, from 1 to the height",
            Operand::Number => "the seed of the stream, a number below 2^32",
            Operand::Packets => "the number of packets, at most 1000000",
            Operand::Clears => {
                "how many clear packets: 1 to 4294967295, at most ecm-every * crypto-ecms for each control word of SITE"
            }
            Operand::Pids => "the number of PIDs from 32 to 8175 that carry payload, at most 256",
            Operand::Words => {
                "how many control words the broadcast has: 1 to 4294967295, at most those that SITE has left"
            }
            Operand::NewSite => {
                "the site that is made: a new file, of which the name is that of SITE with its last number one higher"
            }
            Operand::Out =>
                "the output file; /dev/stdout for a pipe, and all lines then go to standard error",
        }
    }
    /// Whether the program may end with this exit because the argument, or what it names, is refused.
    fn refuses(self, exit: Exit) -> bool
        ensures { result ≡ argument_refuses self exit }
    {
        match self {
            Operand::Site => matches!(exit, Exit::BadSite | Exit::Limit),
            Operand::Book
            | Operand::Accounts
            | Operand::Commands
            | Operand::Script
            | Operand::Leaves => matches!(exit, Exit::BadBook | Exit::Limit),
            Operand::Card => matches!(exit, Exit::BadCard | Exit::Limit),
            Operand::Clear => matches!(exit, Exit::BadClear),
            Operand::Stream => matches!(exit, Exit::BadStream),
            Operand::Leaf
            | Operand::Width
            | Operand::Number
            | Operand::Packets
            | Operand::Clears
            | Operand::Pids
            | Operand::Words => matches!(exit, Exit::BadWord),
            Operand::NewSite => matches!(exit, Exit::BadOut),
            Operand::Live | Operand::Out => false,
        }
    }
}
