ghost use Rattle.std.specs.Prelude.{◌≡◌, ◌↔◌, ◌≤◌, length, true};
ghost use Rattle.sd_command_line.specs.Commands.{example_of, command_name, operands_of, command_named};
ghost use Rattle.sd_command_line.specs.Commands.{ends_with, files_of, first_named, is_own, work_of, HoldsSecrets};

use crate::exit::Exit;
use crate::operand::{Files, Operand, any_refuses};

/// A command of the program that takes files, numbers or both.
#[derive(Clone, Copy)]
pub enum Command {
    /// `accounts SITE ACCOUNTS OUT`: makes the book from subscriber accounts.
    Accounts,
    /// `air SITE BOOK CLEAR OUT`: makes the broadcast of a live clear stream, with a new site.
    Air,
    /// `apart SITE BOOK SITE BOOK`: checks whether two broadcasts may share cards.
    Apart,
    /// `book SITE BOOK COMMANDS OUT`: appends commands to a book.
    Book,
    /// `card SITE LEAF OUT`: makes a receiver's card.
    Card,
    /// `cover SITE BOOK`: prints the Subset Difference cover of each period.
    Cover,
    /// `field SITE CLEAR SCRIPT`: prints what receivers write that miss packets or lose power.
    Field,
    /// `head SITE BOOK CLEAR OUT`: makes the scrambled broadcast.
    Head,
    /// `layered SITE BOOK WIDTH`: prints the layered cover of each period.
    Layered,
    /// `lcard SITE LEAF WIDTH OUT`: makes a receiver's card for layered covers.
    Lcard,
    /// `messages SITE STREAM`: prints the EMM sections and ECMs of a broadcast.
    Messages,
    /// `next SITE BOOK WORDS OUT`: makes the site of the next broadcast from a site.
    Next,
    /// `opens SITE BOOK LEAVES`: prints which sets a coalition of cards opens.
    Opens,
    /// `plan SITE BOOK PACKETS PIDS`: prints the size of a broadcast on air.
    Plan,
    /// `receive CARD STREAM OUT`: writes the clear packets that a card opens.
    Receive,
    /// `sample NUMBER PACKETS OUT`: makes a clear stream for tests.
    Sample,
    /// `show CARD`: prints the fields of a card's file, without its keys.
    Show,
    /// `status SITE BOOK LEAF`: prints whether a receiver is entitled, and when that changes.
    Status,
    /// `tables STREAM`: prints the PSI tables of a stream as JSON.
    Tables,
    /// `trace SITE BOOK LEAVES`: finds the cards in a decoder by queries.
    Trace,
    /// `trial SITE BOOK CLEAR`: prints what each receiver writes from a broadcast.
    Trial,
    /// `twin SITE WORDS OUT`: makes the site of a broadcast at the same time from a site.
    Twin,
    /// `watch CARD STREAM OUT`: writes the clear packets that a card opens of a stream that may be damaged.
    Watch,
}

/// All commands, by their names.
pub const COMMANDS: [Command; 23] = [
    Command::Accounts,
    Command::Air,
    Command::Apart,
    Command::Book,
    Command::Card,
    Command::Cover,
    Command::Field,
    Command::Head,
    Command::Layered,
    Command::Lcard,
    Command::Messages,
    Command::Next,
    Command::Opens,
    Command::Plan,
    Command::Receive,
    Command::Sample,
    Command::Show,
    Command::Status,
    Command::Tables,
    Command::Trace,
    Command::Trial,
    Command::Twin,
    Command::Watch,
];

impl Command {
    /// The command of this name, or none if no command has it.
    #[tactic(auto, unfolding(crate::specs::Commands::command_named))]
    pub fn of(word: &str) -> Option<Command>
        ensures { result ≡ command_named word.now }
    {
        named(word, &COMMANDS)
    }

    /// The command's name.
    #[tactic(auto, unfolding(crate::specs::Commands::command_name))]
    pub fn name(self) -> &'static str
        ensures { result.now ≡ command_name self }
    {
        match self {
            Command::Accounts => "accounts",
            Command::Air => "air",
            Command::Apart => "apart",
            Command::Book => "book",
            Command::Card => "card",
            Command::Cover => "cover",
            Command::Field => "field",
            Command::Head => "head",
            Command::Layered => "layered",
            Command::Lcard => "lcard",
            Command::Messages => "messages",
            Command::Next => "next",
            Command::Opens => "opens",
            Command::Plan => "plan",
            Command::Receive => "receive",
            Command::Sample => "sample",
            Command::Show => "show",
            Command::Status => "status",
            Command::Tables => "tables",
            Command::Trace => "trace",
            Command::Trial => "trial",
            Command::Twin => "twin",
            Command::Watch => "watch",
        }
    }

    /// The arguments after the command's name, at most four.
    #[tactic(auto, unfolding(crate::specs::Commands::operands_of))]
    pub fn operands(self) -> &'static [Operand]
        ensures value { result.now ≡ operands_of self }
        ensures few { length result.now ≤ 4 }
    {
        match self {
            Command::Accounts => &[Operand::Site, Operand::Accounts, Operand::Out],
            Command::Air => &[Operand::Site, Operand::Book, Operand::Live, Operand::Out],
            Command::Apart => &[Operand::Site, Operand::Book, Operand::Site, Operand::Book],
            Command::Book => &[
                Operand::Site,
                Operand::Book,
                Operand::Commands,
                Operand::Out,
            ],
            Command::Card => &[Operand::Site, Operand::Leaf, Operand::Out],
            Command::Cover => &[Operand::Site, Operand::Book],
            Command::Field => &[Operand::Site, Operand::Clear, Operand::Script],
            Command::Head => &[Operand::Site, Operand::Book, Operand::Clear, Operand::Out],
            Command::Layered => &[Operand::Site, Operand::Book, Operand::Width],
            Command::Lcard => &[Operand::Site, Operand::Leaf, Operand::Width, Operand::Out],
            Command::Messages => &[Operand::Site, Operand::Stream],
            Command::Next => &[
                Operand::Site,
                Operand::Book,
                Operand::Words,
                Operand::NewSite,
            ],
            Command::Opens => &[Operand::Site, Operand::Book, Operand::Leaves],
            Command::Plan => &[Operand::Site, Operand::Book, Operand::Clears, Operand::Pids],
            Command::Receive => &[Operand::Card, Operand::Stream, Operand::Out],
            Command::Sample => &[Operand::Number, Operand::Packets, Operand::Out],
            Command::Show => &[Operand::Card],
            Command::Status => &[Operand::Site, Operand::Book, Operand::Leaf],
            Command::Tables => &[Operand::Stream],
            Command::Trace => &[Operand::Site, Operand::Book, Operand::Leaves],
            Command::Trial => &[Operand::Site, Operand::Book, Operand::Clear],
            Command::Twin => &[Operand::Site, Operand::Words, Operand::NewSite],
            Command::Watch => &[Operand::Card, Operand::Stream, Operand::Out],
        }
    }

    /// The files that the arguments name.
    pub fn files(self) -> Files
        ensures { result ≡ files_of self }
    {
        Files::among(self.operands())
    }

    /// Whether OUT holds secrets: those of a receiver, or the master secret of a site.
    pub fn holds_secrets(self) -> bool
        ensures { (result ≡ true) ↔ HoldsSecrets self }
    {
        matches!(
            self,
            Command::Card | Command::Lcard | Command::Next | Command::Twin
        )
    }

    /// The command's line in help: what it does.
    #[tactic(auto, unfolding(crate::specs::Commands::work_of))]
    pub fn work(self) -> &'static str
        ensures { result.now ≡ work_of self }
    {
        match self {
            Command::Accounts =>
                "makes the book from the accounts of named subscribers, and reports them",
            Command::Air => "makes OUT, the broadcast of a live clear stream, with a new site",
            Command::Apart => "checks whether two broadcasts may share cards",
            Command::Book => "makes a longer book: its commands, then those of COMMANDS",
            Command::Card => "makes the card of a receiver",
            Command::Cover => "prints the sets of each period's cover",
            Command::Field => "prints what receivers write that miss packets or lose power",
            Command::Head => "makes the scrambled broadcast of a clear stream",
            Command::Layered => "prints the sets of each period's layered cover",
            Command::Lcard => "makes the smaller card of a receiver for layered covers",
            Command::Messages => "prints the messages of a broadcast, one line each",
            Command::Next =>
                "makes the site of the next broadcast: new control words, a new period",
            Command::Opens => "prints which sets of each period the cards of a coalition open",
            Command::Plan => "prints the size of a broadcast on air, before it is made",
            Command::Receive =>
                "writes the clear packets that a card opens, of one broadcast or of several in a row",
            Command::Sample => "makes a clear stream for tests",
            Command::Show => "prints the fields of a card's file, without its keys",
            Command::Status => "prints whether a receiver is entitled, and when that changes",
            Command::Tables => "prints the tables of a stream, one line of JSON each",
            Command::Trace => "prints the receivers whose cards a decoder holds, found by queries",
            Command::Trial => "prints what each receiver writes from a broadcast",
            Command::Twin =>
                "makes the site of a broadcast at the same time: new control words, the same periods",
            Command::Watch => "makes OUT, what the card opens of a stream that may be damaged",
        }
    }

    /// Whether the command may end with this exit.
    #[tactic(auto, unfolding(crate::specs::Commands::ends_with))]
    pub fn may_end(self, exit: Exit) -> bool
        ensures { result ≡ ends_with self exit }
    {
        exit.is_common() || self.has_own(exit) || any_refuses(self.operands(), exit)
    }

    /// Whether the command may end so with arguments each of which is good.
    fn has_own(self, exit: Exit) -> bool
        ensures { result ≡ is_own self exit }
    {
        match self {
            Command::Air => matches!(exit, Exit::SiteUsed | Exit::OtherBook | Exit::SiteUsedUp),
            Command::Apart => matches!(exit, Exit::Clash),
            Command::Head | Command::Next => matches!(exit, Exit::OtherBook),
            Command::Receive | Command::Watch => matches!(
                exit,
                Exit::Revoked | Exit::Unheard | Exit::Unclosed | Exit::Gaps | Exit::NoCat
            ),
            _ => false,
        }
    }

    /// An example of the command's arguments, as help prints it.
    #[tactic(auto, unfolding(crate::specs::Commands::example_of))]
    pub fn example(self) -> &'static str
        ensures { result.now ≡ example_of self }
    {
        match self {
            Command::Accounts => "accounts examples/site.txt examples/accounts.txt book.txt",
            Command::Air => "air site-1.txt examples/book.txt clear.ts on-air.ts",
            Command::Apart =>
                "apart examples/site-1.txt examples/book.txt examples/site-2.txt examples/book.txt",
            Command::Book =>
                "book examples/site.txt examples/book.txt examples/today.txt longer.txt",
            Command::Card => "card examples/site.txt 2 card-2",
            Command::Cover => "cover examples/site.txt examples/book.txt",
            Command::Field => "field examples/site.txt clear.ts examples/script.txt",
            Command::Head => "head examples/site.txt examples/book.txt clear.ts broadcast.ts",
            Command::Layered => "layered examples/site.txt examples/book.txt 2",
            Command::Lcard => "lcard examples/site.txt 2 2 layer-card-2",
            Command::Messages => "messages examples/site.txt broadcast.ts",
            Command::Next => "next site-0.txt examples/book.txt 1000 site-1.txt",
            Command::Opens => "opens examples/site.txt examples/book.txt examples/pooled.txt",
            Command::Plan => "plan examples/site.txt examples/book.txt 600 3",
            Command::Receive => "receive card-2 broadcast.ts opened.ts",
            Command::Sample => "sample 7 600 clear.ts",
            Command::Show => "show card-2",
            Command::Status => "status examples/site.txt examples/book.txt 2",
            Command::Tables => "tables broadcast.ts",
            Command::Trace => "trace examples/site.txt examples/book.txt examples/pair.txt",
            Command::Trial => "trial examples/site.txt examples/book.txt clear.ts",
            Command::Twin => "twin site-1.txt 1000 site-2.txt",
            Command::Watch => "watch card-2 broadcast.ts opened.ts",
        }
    }
}

/// The first of these commands that has this name.
fn named(word: &str, commands: &[Command]) -> Option<Command>
    ensures { result ≡ first_named word.now commands.now }
{
    for command in commands {
        if word == command.name() {
            return Some(*command);
        }
    }
    None
}
