//! The line of each status (docs/FORMATS.md, Exits).

ghost use Rattle.std.specs.Prelude.{◌≡◌, IfOk, OnErr, string_bytes};
ghost use Rattle.sd_command_base.specs.Texts.{line_of_status, site_refusal_line as site_line_of};
ghost use Rattle.sd_command_base.specs.Texts.{stream_line as stream_line_of};
ghost use Rattle.sd_command_base.specs.Texts.{limit_line as limit_line_of};
ghost use Rattle.sd_command_base.specs.Texts.{clear_refusal_line as clear_line_of, clear_text as clear_text_of};
ghost use Rattle.sd_command_base.specs.Texts.{break_text as break_text_of, form_text as form_text_of, hex_of};
ghost use Rattle.sd_command_base.specs.Texts.{card_refusal_line as card_line_of, checks_text as checks_text_of};
ghost use Rattle.sd_command_base.specs.Texts.{stream_text as stream_text_of};
ghost use Rattle.sd_command_base.specs.Texts.{revoked_line as revoked_line_of, unheard_line as unheard_line_of};
ghost use Rattle.sd_command_base.specs.Texts.{unclosed_line as unclosed_line_of, gaps_line as gaps_line_of};
ghost use Rattle.sd_command_base.specs.Texts.{missing_line as missing_line_of, book_line as book_line_of};
ghost use Rattle.sd_command_base.specs.Texts.{word_refusal_line as word_line_of, clash_line as clash_line_of};
ghost use Rattle.sd_command_base.specs.Texts.{out_line as out_line_of, used_up_line as used_up_line_of};
ghost use Rattle.sd_command_base.specs.Lines.{bytes_of};
ghost use Rattle.sd_command_base.specs.Results.{IsLineInMemory};

use crate::{Clash, LimitKind, OutCause, Status, StreamRefusal};
use sd_book::BookLimit;
use sd_engine::{BreakCause, MOST_PACKETS};
use sd_message::{ClearFault, StreamFault};
use sd_psi::FormFault;
use sd_site_cards::{CardFault, SiteFault};
use std::alloc::{AllocError, Global};

/// A line that is printed: a fixed text, or one with numbers in it.
#[derive(Drop)]
pub enum Line {
    /// A line without numbers.
    Fixed(&'static str),
    /// A line with numbers in it.
    Made(String),
}

impl Line {
    /// The text of the line, with its line feed.
    pub fn as_str(&self) -> &str
        ensures { result.now ≡ bytes_of self.now }
    {
        match self {
            Line::Fixed(text) => text,
            Line::Made(text) => text.as_str(),
        }
    }
}

/// The line of a status, with its line feed; empty for `Done` and `PrintFault`.
#[tactic(auto, unfolding(crate::specs::Texts::line_of_status))]
pub fn status_line(alloc: Global, status: Status) -> Result<Line, AllocError>
    ensures value { IfOk result (λ line. bytes_of line ≡ line_of_status status) }
    ensures memory { OnErr result (IsLineInMemory status) }
{
    match status {
        Status::Done | Status::PrintFault => Ok(Line::Fixed("")),
        Status::Usage => Ok(Line::Fixed("usage\n")),
        Status::Missing(word) => missing_line(alloc, word),
        Status::Revoked { leaf, period } => revoked_line(alloc, leaf, period),
        Status::DepotFault => Ok(Line::Fixed("device fault\n")),
        Status::BadSite { fault, .. } => site_line(alloc, fault),
        Status::BadBook { word, line } => book_line(alloc, word, line.number),
        Status::BadCard { fault, .. } => card_line(alloc, fault),
        Status::BadClear(refusal) => clear_line(alloc, refusal),
        Status::BadStream(refusal) => stream_line(alloc, refusal),
        Status::Limit(kind) => limit_line(alloc, kind),
        Status::NoMemory => Ok(Line::Fixed("no memory\n")),
        Status::Unheard { leaf, period } => unheard_line(alloc, leaf, period),
        Status::Unclosed(number) => unclosed_line(alloc, number),
        Status::Gaps(packets) => gaps_line(alloc, packets),
        Status::NoCat => Ok(Line::Fixed("no CAT for this card\n")),
        Status::BadWord(word) => word_line(alloc, word),
        Status::Clash(clash) => clash_line(alloc, clash),
        Status::BadOut { word, cause } => out_line(alloc, word, cause),
        Status::SiteUsed => Ok(Line::Fixed("site is used\n")),
        Status::OtherBook => Ok(Line::Fixed("book is not that of the site\n")),
        Status::SiteUsedUp(packet) => used_up_line(alloc, packet),
    }
}

/// The line of a file that isn't there.
#[tactic(auto, unfolding(crate::specs::Texts::missing_line))]
fn missing_line(alloc: Global, word: u8) -> Result<Line, AllocError>
    ensures { IfOk result (λ line. bytes_of line ≡ missing_line_of word) }
{
    Ok(Line::Made(format!(in alloc; "missing file word {word}\n")?))
}

/// The line of a refused line of a file.
#[tactic(auto, unfolding(crate::specs::Texts::book_line))]
fn book_line(alloc: Global, word: u8, line: u32) -> Result<Line, AllocError>
    ensures { IfOk result (λ text. bytes_of text ≡ book_line_of word line) }
{
    Ok(Line::Made(format!(in alloc; "word {word} line {line} is refused\n")?))
}

/// The line of a word that is out of its range.
#[tactic(auto, unfolding(crate::specs::Texts::word_refusal_line))]
fn word_line(alloc: Global, word: u8) -> Result<Line, AllocError>
    ensures { IfOk result (λ line. bytes_of line ≡ word_line_of word) }
{
    Ok(Line::Made(format!(in alloc; "word {word} is out of range\n")?))
}

/// The line of a site without a number or a control word for this packet.
#[tactic(auto, unfolding(crate::specs::Texts::used_up_line))]
fn used_up_line(alloc: Global, packet: u64) -> Result<Line, AllocError>
    ensures { IfOk result (λ line. bytes_of line ≡ used_up_line_of packet) }
{
    Ok(Line::Made(format!(in alloc; "site is used up at packet {packet}\n")?))
}

/// The line of two broadcasts that may not go out under one set of cards.
#[tactic(auto, unfolding(crate::specs::Texts::clash_line))]
fn clash_line(alloc: Global, clash: Clash) -> Result<Line, AllocError>
    ensures { IfOk result (λ line. bytes_of line ≡ clash_line_of clash) }
{
    Ok(match clash {
        Clash::Heights => Line::Fixed("sites have two heights\n"),
        Clash::Masters => Line::Fixed("sites have two masters\n"),
        Clash::NoWords(site) => Line::Made(format!(in alloc; "site {site} has no control word\n")?),
        Clash::SharedWord(word) => Line::Made(format!(in alloc;
            "sites share control word {word}\n"
        )?),
        Clash::Books { leaf, period } => Line::Made(format!(in alloc;
            "books disagree on receiver {leaf} in period {period}\n"
        )?),
    })
}

/// The line of a file that must not be made.
#[tactic(auto, unfolding(crate::specs::Texts::out_line))]
fn out_line(alloc: Global, word: u8, cause: OutCause) -> Result<Line, AllocError>
    ensures { IfOk result (λ line. bytes_of line ≡ out_line_of word cause) }
{
    Ok(Line::Made(match cause {
        OutCause::There => format!(in alloc; "file word {word} is there\n")?,
        OutCause::Name => format!(in alloc; "file word {word} does not follow file word 1\n")?,
    }))
}

/// The line of a leaf that is revoked.
#[tactic(auto, unfolding(crate::specs::Texts::revoked_line))]
fn revoked_line(alloc: Global, leaf: u32, period: u32) -> Result<Line, AllocError>
    ensures { IfOk result (λ line. bytes_of line ≡ revoked_line_of leaf period) }
{
    Ok(Line::Made(format!(in alloc; "receiver {leaf} is revoked in period {period}\n")?))
}

/// The line of a leaf of which no entitlement came.
#[tactic(auto, unfolding(crate::specs::Texts::unheard_line))]
fn unheard_line(alloc: Global, leaf: u32, period: u32) -> Result<Line, AllocError>
    ensures { IfOk result (λ line. bytes_of line ≡ unheard_line_of leaf period) }
{
    Ok(Line::Made(format!(in alloc;
        "receiver {leaf} did not hear its entitlement for period {period}\n"
    )?))
}

/// The line of a stream that isn't closed.
#[tactic(auto, unfolding(crate::specs::Texts::unclosed_line))]
fn unclosed_line(alloc: Global, number: u64) -> Result<Line, AllocError>
    ensures { IfOk result (λ line. bytes_of line ≡ unclosed_line_of number) }
{
    Ok(Line::Made(format!(in alloc; "stream ends before message {number}\n")?))
}

/// The line of clear packets that were not written.
#[tactic(auto, unfolding(crate::specs::Texts::gaps_line))]
fn gaps_line(alloc: Global, packets: u64) -> Result<Line, AllocError>
    ensures { IfOk result (λ line. bytes_of line ≡ gaps_line_of packets) }
{
    Ok(Line::Made(format!(in alloc; "{packets} clear packets are missing\n")?))
}

/// The line of a refused site.
#[tactic(auto, unfolding(crate::specs::Texts::site_refusal_line))]
fn site_line(alloc: Global, fault: SiteFault) -> Result<Line, AllocError>
    ensures { IfOk result (λ line. bytes_of line ≡ site_line_of fault) }
{
    Ok(match fault {
        SiteFault::Line(k) => Line::Made(format!(in alloc; "site line {k} is malformed\n")?),
        SiteFault::Range(k) => Line::Made(format!(in alloc; "site line {k} is out of range\n")?),
        SiteFault::SamePid => Line::Fixed("site names one pid twice\n"),
        SiteFault::Extra(k) => Line::Made(format!(in alloc; "site has extra line {k}\n")?),
        SiteFault::Short => Line::Fixed("site is short\n"),
    })
}

/// The line of a clear stream that is refused.
#[tactic(auto, unfolding(crate::specs::Texts::clear_refusal_line))]
fn clear_line(alloc: Global, refusal: StreamRefusal<ClearFault>) -> Result<Line, AllocError>
    ensures { IfOk result (λ line. bytes_of line ≡ clear_line_of refusal) }
{
    let (packet, cause) = match refusal {
        StreamRefusal::Broken(found) => (
            found.packet,
            String::from_str(alloc, break_text(found.cause))?,
        ),
        StreamRefusal::TooLong => (MOST_PACKETS, String::from_str(alloc, "too long")?),
        StreamRefusal::Packet(fault) => (fault.packet(), clear_text(alloc, fault)?),
    };
    Ok(Line::Made(format!(in alloc; "clear packet {packet}: {cause}\n")?))
}

/// Why a clear packet is refused.
#[tactic(auto, unfolding(crate::specs::Texts::clear_text))]
fn clear_text(alloc: Global, fault: ClearFault) -> Result<String, AllocError>
    ensures { IfOk result (λ text. string_bytes text ≡ clear_text_of fault) }
{
    match fault {
        ClearFault::AlreadyScrambled(_) => String::from_str(alloc, "already scrambled"),
        ClearFault::PidTaken(_, pid) => format!(in alloc; "pid {pid} is taken"),
        ClearFault::PatForm(_, form) => {
            let form = form_text(alloc, form)?;
            format!(in alloc; "pat {form}")
        }
        ClearFault::PmtForm(_, form) => {
            let form = form_text(alloc, form)?;
            format!(in alloc; "pmt {form}")
        }
        ClearFault::TooManyPids(_) => String::from_str(alloc, "too many pids"),
        ClearFault::TooLong(_) => String::from_str(alloc, "too long"),
    }
}

/// The form that a PAT or a PMT hasn't.
#[tactic(auto, unfolding(crate::specs::Texts::form_text, crate::specs::Texts::hex_of))]
fn form_text(alloc: Global, fault: FormFault) -> Result<String, AllocError>
    ensures { IfOk result (λ text. string_bytes text ≡ form_text_of fault) }
{
    match fault {
        FormFault::Pointer => String::from_str(alloc, "pointer"),
        FormFault::Table => String::from_str(alloc, "table"),
        FormFault::Length => String::from_str(alloc, "length"),
        FormFault::Crc { found, due } => {
            let found = hex_text(alloc, found)?;
            let due = hex_text(alloc, due)?;
            format!(in alloc; "crc {found} {due}")
        }
        FormFault::Trailing => String::from_str(alloc, "trailing"),
        FormFault::NoRoom => String::from_str(alloc, "no room"),
        FormFault::Descriptor => String::from_str(alloc, "descriptor"),
    }
}

/// A number in eight hexadecimal digits.
#[tactic(auto, unfolding(crate::specs::Texts::hex_of))]
fn hex_text(alloc: Global, number: u32) -> Result<String, AllocError>
    ensures { IfOk result (λ text. string_bytes text ≡ hex_of number) }
{
    hex::encode(alloc, &number.to_be_bytes())
}

/// The line of a stream that is refused.
#[tactic(auto, unfolding(crate::specs::Texts::stream_line))]
fn stream_line(alloc: Global, refusal: StreamRefusal<StreamFault>) -> Result<Line, AllocError>
    ensures { IfOk result (λ line. bytes_of line ≡ stream_line_of refusal) }
{
    let (packet, cause) = match refusal {
        StreamRefusal::Broken(found) => (
            found.packet,
            String::from_str(alloc, break_text(found.cause))?,
        ),
        StreamRefusal::TooLong => (MOST_PACKETS, String::from_str(alloc, "too long")?),
        StreamRefusal::Packet(fault) => (fault.packet(), stream_text(alloc, fault)?),
    };
    Ok(Line::Made(format!(in alloc; "stream packet {packet}: {cause}\n")?))
}

/// Why a packet of a stream is refused.
#[tactic(auto, unfolding(crate::specs::Texts::stream_text))]
fn stream_text(alloc: Global, fault: StreamFault) -> Result<String, AllocError>
    ensures { IfOk result (λ text. string_bytes text ≡ stream_text_of fault) }
{
    match fault {
        StreamFault::WrongKey {
            period,
            found,
            due,
            ..
        } => {
            let checks = checks_text(alloc, &found, &due)?;
            format!(in alloc; "wrong key of period {period} {checks}")
        }
        StreamFault::WrongWord {
            word,
            found,
            due,
            ..
        } => {
            let checks = checks_text(alloc, &found, &due)?;
            format!(in alloc; "wrong word {word} {checks}")
        }
        StreamFault::BadEmm(_, fault) => {
            let fault = fault.name();
            format!(in alloc; "bad emm {fault}")
        }
        StreamFault::BadEcm(_, fault) => {
            let fault = fault.name();
            format!(in alloc; "bad ecm {fault}")
        }
        StreamFault::Parity(_) => String::from_str(alloc, "parity"),
    }
}

/// A check value, and the one that it is to be.
#[tactic(auto, unfolding(crate::specs::Texts::checks_text))]
fn checks_text(alloc: Global, found: &[u8; 16], due: &[u8; 16]) -> Result<String, AllocError>
    ensures { IfOk result (λ text. string_bytes text ≡ checks_text_of found.now due.now) }
{
    let found = hex::encode(alloc, found)?;
    let due = hex::encode(alloc, due)?;
    format!(in alloc; "{found} {due}")
}

/// Why a stream breaks.
#[tactic(auto, unfolding(crate::specs::Texts::break_text))]
fn break_text(cause: BreakCause) -> &'static str
    ensures { result.now ≡ break_text_of cause }
{
    match cause {
        BreakCause::Torn => "torn",
        BreakCause::NoSync => "no sync",
    }
}

/// The line of a card that is refused.
#[tactic(auto, unfolding(crate::specs::Texts::card_refusal_line))]
fn card_line(alloc: Global, fault: CardFault) -> Result<Line, AllocError>
    ensures { IfOk result (λ line. bytes_of line ≡ card_line_of fault) }
{
    Ok(match fault {
        CardFault::Magic => Line::Fixed("card: magic\n"),
        CardFault::Version => Line::Fixed("card: version\n"),
        CardFault::Height => Line::Fixed("card: height\n"),
        CardFault::Leaf => Line::Fixed("card: leaf\n"),
        CardFault::Length => Line::Fixed("card: length\n"),
        CardFault::Check { found, due } => {
            let checks = checks_text(alloc, &found, &due)?;
            Line::Made(format!(in alloc; "card: check {checks}\n")?)
        }
        CardFault::NoMemory => Line::Fixed("no memory\n"),
    })
}

/// The line of what is over its limit.
#[tactic(auto, unfolding(crate::specs::Texts::limit_line, crate::specs::Texts::book_limit_line))]
fn limit_line(alloc: Global, kind: LimitKind) -> Result<Line, AllocError>
    ensures { IfOk result (λ line. bytes_of line ≡ limit_line_of kind) }
{
    Ok(match kind {
        LimitKind::SiteBytes => Line::Fixed("limit: site bytes\n"),
        LimitKind::BookBytes => Line::Fixed("limit: book bytes\n"),
        LimitKind::CardBytes => Line::Fixed("limit: card bytes\n"),
        LimitKind::Book(BookLimit::Lines) => Line::Fixed("limit: book lines\n"),
        LimitKind::Book(BookLimit::Periods) => Line::Fixed("limit: periods\n"),
        LimitKind::Book(BookLimit::Revoked(q)) => {
            Line::Made(format!(in alloc; "limit: revoked in period {q}\n")?)
        }
        LimitKind::TrialHeight => Line::Fixed("limit: trial height\n"),
        LimitKind::TrialPackets => Line::Fixed("limit: trial packets\n"),
        LimitKind::Traced => Line::Fixed("limit: traced\n"),
        LimitKind::FieldHeight => Line::Fixed("limit: field height\n"),
        LimitKind::FieldPackets => Line::Fixed("limit: field packets\n"),
        LimitKind::FieldEvents => Line::Fixed("limit: field events\n"),
    })
}
