ghost use Rattle.std.specs.Prelude.{◌≡◌, map, option_map, string_bytes, IfOk};
ghost use Rattle.sd_command_line.specs.CommandLine.{words_of};
ghost use Rattle.sd_command_line.specs.Explained.{argument_line, argument_numbered, card_word};
ghost use Rattle.sd_command_line.specs.Explained.{clash_word as word_of_clash};
ghost use Rattle.sd_command_line.specs.Explained.{clear_word as word_of_clear, command_explained, count_line};
ghost use Rattle.sd_command_line.specs.Explained.{explained};
ghost use Rattle.sd_command_line.specs.Explained.{file_line, file_named, file_with_text as file_there, help_line};
ghost use Rattle.sd_command_line.specs.Explained.{number_line};
ghost use Rattle.sd_command_line.specs.Explained.{of_argument, plain_line, shown_argument};
ghost use Rattle.sd_command_line.specs.Explained.{stream_word as word_of_stream};
ghost use Rattle.sd_command_line.specs.Explained.{taken_reason, no_topic_line, trouble_line, usage_line};
ghost use Rattle.sd_command_line.specs.Explained.{word_explained};
ghost use Rattle.sd_command_line.specs.Reasons.{clear_reason, line_reason, missing_reason, revoked_reason, site_reason};
ghost use Rattle.sd_command_line.specs.Reasons.{stream_reason, unheard_reason};
ghost use Rattle.sd_command_line.specs.Words.{command_in};

use crate::found::{Argument, find_argument, find_file};
use crate::order::{is_help, is_version, out_is_mark};
use crate::{Command, CommandLine, reason};
use sd_command_base::{BadLine, Clash, Excerpt, Status, StreamRefusal, Trouble, escaped};
use sd_message::{ClearFault, StreamFault};
use sd_site_cards::SiteFault;
use std::alloc::{AllocError, Global};

/// SITE is this argument of the commands that ask whether it was used, and whether it has numbers left.
const SITE_WORD: u8 = 1;

/// BOOK is this argument of each command that asks whether it is the site's.
const BOOK_WORD: u8 = 2;

/// CARD is this argument of the commands that receive.
const CARD_WORD: u8 = 1;

/// The line that explains a status to a user, with what the machine said of a file at its last error. No text where the
/// work is done, where printing failed, or where memory ran out.
#[tactic(auto, unfolding(crate::specs::Explained::explained))]
pub fn explanation(
    alloc: Global,
    line: &CommandLine<'_>,
    trouble: Option<(&str, Trouble)>,
    status: Status,
) -> Result<String, AllocError>
    ensures { IfOk result (λ text. string_bytes text
        ≡ explained (words_of line.now) (option_map (λ said. (said.0.now, said.1)) trouble.entry) status) }
{
    let command = line.command;
    match status {
        Status::Usage => usage(alloc, line),
        Status::Missing(word) => missing(alloc, line, word),
        Status::Revoked { leaf, period } => revoked(alloc, line, leaf, period),
        Status::DepotFault => at_file(alloc, line, trouble),
        Status::BadSite { word, fault, text } => site(alloc, line, word, fault, &text),
        Status::BadBook { word, line: bad } => book(alloc, line, word, &bad),
        Status::BadCard { word, fault } => simple(alloc, line, word, reason::card(fault)),
        Status::BadClear(refusal) => clear(alloc, line, refusal),
        Status::BadStream(refusal) => stream(alloc, line, refusal),
        Status::Limit(kind) => plain(alloc, reason::limit(kind)),
        Status::Unheard { leaf, period } => unheard(alloc, line, leaf, period),
        Status::Unclosed(_) => simple(alloc, line, stream_word(command), reason::unclosed()),
        Status::Gaps(_) => simple(alloc, line, stream_word(command), reason::gaps()),
        Status::NoCat => simple(alloc, line, stream_word(command), reason::no_cat()),
        Status::BadWord(word) => range(alloc, line, word),
        Status::Clash(clash) => simple(alloc, line, clash_word(clash), reason::clash(clash)),
        Status::BadOut { word, cause } => simple(alloc, line, word, reason::out(cause)),
        Status::SiteUsed => simple(alloc, line, SITE_WORD, reason::used()),
        Status::OtherBook => simple(alloc, line, BOOK_WORD, reason::own_book(command)),
        Status::SiteUsedUp(_) => simple(alloc, line, SITE_WORD, reason::used_up()),
        Status::Done | Status::PrintFault | Status::NoMemory => Ok(String::new(alloc)),
    }
}

/// CLEAR is this argument of a command that has it.
fn clear_word(command: Option<Command>) -> u8
    ensures { result ≡ word_of_clear command }
{
    match command {
        Some(Command::Field) => 2,
        _ => 3,
    }
}

/// STREAM is this argument of a command that has it.
fn stream_word(command: Option<Command>) -> u8
    ensures { result ≡ word_of_stream command }
{
    match command {
        Some(Command::Tables) => 1,
        _ => 2,
    }
}

/// The argument of `apart` that a clash is about.
fn clash_word(clash: Clash) -> u8
    ensures { result ≡ word_of_clash clash }
{
    match clash {
        Clash::NoWords(1) => 1,
        Clash::Books { .. } => 4,
        _ => 3,
    }
}

/// The line of the argument of this number, if it is there.
fn simple(
    alloc: Global,
    line: &CommandLine<'_>,
    word: u8,
    reason: &str,
) -> Result<String, AllocError>
    ensures { IfOk result (λ text. string_bytes text
        ≡ of_argument (words_of line.now) word (λ operand. reason.now)) }
{
    match find_argument(line, word) {
        Some(argument) => about(alloc, argument, reason),
        None => Ok(String::new(alloc)),
    }
}

/// The line of the card of receiver u, which is revoked in period q.
fn revoked(alloc: Global, line: &CommandLine<'_>, u: u32, q: u32) -> Result<String, AllocError>
    ensures { IfOk result (λ text. string_bytes text
        ≡ of_argument (words_of line.now) card_word (λ operand. revoked_reason u q)) }
{
    let reason = reason::revoked(alloc, u, q)?;
    simple(alloc, line, CARD_WORD, reason.as_str())
}

/// The line of a stream of which receiver u did not hear its entitlement for period q.
fn unheard(alloc: Global, line: &CommandLine<'_>, u: u32, q: u32) -> Result<String, AllocError>
    ensures { IfOk result (λ text. string_bytes text
        ≡ of_argument (words_of line.now) (word_of_stream (command_in (words_of line.now)))
        (λ operand. unheard_reason u q)) }
{
    let reason = reason::unheard(alloc, u, q)?;
    simple(alloc, line, stream_word(line.command), reason.as_str())
}

/// A line about no argument.
#[tactic(auto, unfolding(crate::specs::Explained::plain_line))]
fn plain(alloc: Global, reason: &str) -> Result<String, AllocError>
    ensures { IfOk result (λ text. string_bytes text ≡ plain_line reason.now) }
{
    format!(in alloc; "sdca: {reason}\n")
}

/// The line of an I/O error, if the machine said at which file it was and what.
#[tactic(auto, unfolding(crate::specs::Explained::trouble_line))]
fn at_file(
    alloc: Global,
    line: &CommandLine<'_>,
    trouble: Option<(&str, Trouble)>,
) -> Result<String, AllocError>
    ensures { IfOk result (λ text. string_bytes text
        ≡ trouble_line (words_of line.now) (option_map (λ said. (said.0.now, said.1)) trouble.entry)) }
{
    let Some((name, trouble)) = trouble else {
        return Ok(String::new(alloc));
    };
    let reason = reason::trouble(trouble);
    match find_file(line, name) {
        Some(argument) => about(alloc, argument, reason),
        None => {
            let name = escaped(alloc, name)?;
            let reason = format!(in alloc; "{name}: {reason}")?;
            plain(alloc, reason.as_str())
        }
    }
}

/// The line of an argument.
#[tactic(auto, unfolding(crate::specs::Explained::argument_line))]
fn about(alloc: Global, argument: Argument<'_>, reason: &str) -> Result<String, AllocError>
    ensures { IfOk result (λ text. string_bytes text ≡ argument_line reason.now (shown_argument argument.entry)) }
{
    let name = argument.operand.name();
    let text = escaped(alloc, argument.text)?;
    format!(in alloc; "sdca: {name} {text}: {reason}\n")
}

/// The line of words that are refused.
#[tactic(auto, unfolding(crate::specs::Explained::usage_line))]
fn usage(alloc: Global, line: &CommandLine<'_>) -> Result<String, AllocError>
    ensures { IfOk result (λ text. string_bytes text ≡ usage_line (words_of line.now)) }
{
    let [name, texts @ ..] = line.words else {
        return String::from_str(alloc, "sdca: no command is given; see sdca help\n");
    };
    if is_help(name.as_str()) {
        help(alloc, name.as_str(), texts)
    } else if is_version(name.as_str()) {
        word(alloc, reason::miscounted(), name.as_str())
    } else {
        command(alloc, line, name.as_str(), texts)
    }
}

/// The line of help with these arguments, which are refused.
fn help(alloc: Global, name: &str, texts: &[String]) -> Result<String, AllocError>
    ensures { IfOk result (λ text. string_bytes text ≡ help_line name.now (map string_bytes texts.now)) }
{
    match texts {
        [topic] => no_page(alloc, topic.as_str()),
        _ => word(alloc, reason::miscounted(), name),
    }
}

/// The line of a word after help that names no page.
fn no_page(alloc: Global, topic: &str) -> Result<String, AllocError>
    ensures { IfOk result (λ text. string_bytes text ≡ no_topic_line topic.now) }
{
    if is_help(topic) || is_version(topic) {
        word(alloc, reason::no_page(), topic)
    } else {
        word(alloc, reason::unknown(), topic)
    }
}

/// The line of words that begin with a name and these arguments, which are refused.
fn command(
    alloc: Global,
    line: &CommandLine<'_>,
    name: &str,
    texts: &[String],
) -> Result<String, AllocError>
    ensures { IfOk result (λ text. string_bytes text
        ≡ command_explained (words_of line.now) name.now (map string_bytes texts.now) line.now.command) }
{
    match line.command {
        Some(command) if texts.len() == command.operands().len() => {
            output(alloc, line, texts.len() as u8, taken(command, texts))
        }
        Some(_) => wrong_number(alloc, name),
        None => word(alloc, reason::unknown(), name),
    }
}

/// Why OUT is refused: it is the mark of SITE, or one of the inputs.
fn taken(command: Command, texts: &[String]) -> &'static str
    ensures { result.now ≡ taken_reason command (map string_bytes texts.now) }
{
    if out_is_mark(command, texts) {
        reason::mark()
    } else {
        reason::output()
    }
}

/// The line of OUT, the argument of this number, that is refused for this reason.
fn output(
    alloc: Global,
    line: &CommandLine<'_>,
    number: u8,
    reason: &str,
) -> Result<String, AllocError>
    ensures { IfOk result (λ text. string_bytes text ≡
        of_argument (words_of line.now) number (λ operand. reason.now)) }
{
    match find_argument(line, number) {
        Some(argument) => about(alloc, argument, reason),
        None => Ok(String::new(alloc)),
    }
}

/// The line of a command with a wrong number of arguments.
#[tactic(auto, unfolding(crate::specs::Explained::count_line))]
fn wrong_number(alloc: Global, name: &str) -> Result<String, AllocError>
    ensures { IfOk result (λ text. string_bytes text ≡ count_line name.now) }
{
    format!(in alloc; "sdca: {name}: wrong number of arguments; see sdca help {name}\n")
}

/// The line of a word that is refused for this reason.
#[tactic(auto, unfolding(crate::specs::Explained::word_explained))]
fn word(alloc: Global, reason: &str, word: &str) -> Result<String, AllocError>
    ensures { IfOk result (λ text. string_bytes text ≡ word_explained reason.now word.now) }
{
    let word = escaped(alloc, word)?;
    format!(in alloc; "sdca: {word}: {reason}; see sdca help\n")
}

/// The line of a file that isn't there.
fn missing(alloc: Global, line: &CommandLine<'_>, word: u8) -> Result<String, AllocError>
    ensures { IfOk result (λ text. string_bytes text ≡
        of_argument (words_of line.now) word (λ operand. missing_reason operand)) }
{
    match find_argument(line, word) {
        Some(argument) => about(alloc, argument, reason::missing(argument.operand)),
        None => Ok(String::new(alloc)),
    }
}

/// The line of a site that is refused.
fn site(
    alloc: Global,
    line: &CommandLine<'_>,
    word: u8,
    fault: SiteFault,
    text: &Excerpt,
) -> Result<String, AllocError>
    ensures { IfOk result (λ out. string_bytes out ≡
        of_argument (words_of line.now) word (λ operand. site_reason (command_in (words_of line.now)) fault text.now)) }
{
    match find_argument(line, word) {
        Some(argument) => {
            let reason = reason::site(alloc, line.command, fault, text)?;
            about(alloc, argument, reason.as_str())
        }
        None => Ok(String::new(alloc)),
    }
}

/// The line of a file of which a line is refused.
fn book(
    alloc: Global,
    line: &CommandLine<'_>,
    word: u8,
    bad: &BadLine,
) -> Result<String, AllocError>
    ensures { IfOk result (λ text. string_bytes text ≡
        of_argument (words_of line.now) word (λ operand. line_reason operand bad.now)) }
{
    match find_argument(line, word) {
        Some(argument) => {
            let reason = reason::line(alloc, argument.operand, bad)?;
            about(alloc, argument, reason.as_str())
        }
        None => Ok(String::new(alloc)),
    }
}

/// The line of a clear stream that is refused.
fn clear(
    alloc: Global,
    line: &CommandLine<'_>,
    refusal: StreamRefusal<ClearFault>,
) -> Result<String, AllocError>
    ensures { IfOk result (λ text. string_bytes text ≡
        of_argument (words_of line.now) (word_of_clear (command_in (words_of line.now)))
        (λ operand. clear_reason refusal)) }
{
    let reason = reason::clear(alloc, refusal)?;
    simple(alloc, line, clear_word(line.command), reason.as_str())
}

/// The line of a broadcast that is refused.
fn stream(
    alloc: Global,
    line: &CommandLine<'_>,
    refusal: StreamRefusal<StreamFault>,
) -> Result<String, AllocError>
    ensures { IfOk result (λ text. string_bytes text ≡
        of_argument (words_of line.now) (word_of_stream (command_in (words_of line.now)))
        (λ operand. stream_reason refusal)) }
{
    let reason = reason::stream(alloc, refusal)?;
    simple(alloc, line, stream_word(line.command), reason.as_str())
}

/// The line of a number that is refused.
fn range(alloc: Global, line: &CommandLine<'_>, word: u8) -> Result<String, AllocError>
    ensures { IfOk result (λ text. string_bytes text ≡ number_line (argument_numbered (words_of line.now) word)) }
{
    match find_argument(line, word) {
        Some(argument) => {
            let reason = reason::range(alloc, argument.operand, argument.text)?;
            about(alloc, argument, reason.as_str())
        }
        None => Ok(String::new(alloc)),
    }
}
