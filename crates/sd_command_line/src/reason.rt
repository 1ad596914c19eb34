ghost use Rattle.std.specs.Prelude.{◌≡◌, IfOk, string_bytes};
ghost use Rattle.sd_command_line.specs.Reasons.{at_packet, book_limit_reason, card_reason, cause_text, clash_reason};
ghost use Rattle.sd_command_line.specs.Reasons.{clear_cause, clear_reason, clear_refusal, gaps_reason, limit_reason};
ghost use Rattle.sd_base.specs.Number.{decimal_value};
ghost use Rattle.sd_command_line.specs.Reasons.{must_be as found_and_due, number_fault as wrong_number, leaf_text};
ghost use Rattle.sd_command_line.specs.Reasons.{line_found, line_reason, mark_reason, miscounted_reason};
ghost use Rattle.sd_command_line.specs.Reasons.{missing_reason, no_cat_reason, no_page_reason, out_reason};
ghost use Rattle.sd_command_line.specs.Reasons.{output_reason, own_book_reason, range_form, range_reason};
ghost use Rattle.sd_command_line.specs.Reasons.{revoked_reason, rule_of, short_reason, site_form, site_reason};
ghost use Rattle.sd_command_line.specs.Reasons.{stream_cause};
ghost use Rattle.sd_command_line.specs.Reasons.{stream_reason, stream_refused, trouble_reason, unclosed_reason};
ghost use Rattle.sd_command_line.specs.Reasons.{unheard_reason, unknown_reason, used_reason, used_up_reason};

use crate::{Command, Operand};
use sd_base::{NumberFault, number_after};
use sd_book::BookLimit;
use sd_command_base::{
    BadLine, Clash, Excerpt, LimitKind, LineCause, OutCause, StreamRefusal, Trouble, quoted,
};
use sd_engine::MOST_PACKETS;
use sd_message::{ClearFault, StreamFault};
use sd_site_cards::{CardFault, SiteFault};
use sd_tree_keys::Height;
use std::alloc::{AllocError, Global};

/// Why a file isn't there.
#[tactic(auto, unfolding(crate::specs::Reasons::missing_reason))]
pub(crate) fn missing(operand: Operand) -> &'static str
    ensures { result.now ≡ missing_reason operand }
{
    match operand {
        Operand::NewSite | Operand::Out => "no such folder",
        _ => "no such file",
    }
}

/// Why a word is refused that should name a command.
#[tactic(auto, unfolding(crate::specs::Reasons::unknown_reason))]
pub(crate) fn unknown() -> &'static str
    ensures { result.now ≡ unknown_reason }
{
    "unknown command"
}

/// Why `help` or `version` is refused after `help`.
#[tactic(auto, unfolding(crate::specs::Reasons::no_page_reason))]
pub(crate) fn no_page() -> &'static str
    ensures { result.now ≡ no_page_reason }
{
    "it has no page of its own"
}

/// Why `help` or `version` is refused with arguments.
#[tactic(auto, unfolding(crate::specs::Reasons::miscounted_reason))]
pub(crate) fn miscounted() -> &'static str
    ensures { result.now ≡ miscounted_reason }
{
    "wrong number of arguments"
}

/// Why OUT is refused.
#[tactic(auto, unfolding(crate::specs::Reasons::output_reason))]
pub(crate) fn output() -> &'static str
    ensures { result.now ≡ output_reason }
{
    "it is one of the inputs"
}

/// Why OUT is refused that has the name of the mark.
#[tactic(auto, unfolding(crate::specs::Reasons::mark_reason))]
pub(crate) fn mark() -> &'static str
    ensures { result.now ≡ mark_reason }
{
    "it is the mark of SITE"
}

/// Why a site is refused that has its mark.
#[tactic(auto, unfolding(crate::specs::Reasons::used_reason))]
pub(crate) fn used() -> &'static str
    ensures { result.now ≡ used_reason }
{
    "it was used; make the next one (sdca next)"
}

/// Why a file must not be made.
#[tactic(auto, unfolding(crate::specs::Reasons::out_reason))]
pub(crate) fn out(cause: OutCause) -> &'static str
    ensures { result.now ≡ out_reason cause }
{
    match cause {
        OutCause::There => "it is there already; each site is made once",
        OutCause::Name => "its name is not that of SITE with the last number one higher",
    }
}

/// Why a book is refused by this command: `next` takes one that begins with the site's, others take the site's.
#[tactic(auto, unfolding(crate::specs::Reasons::own_book_reason))]
pub(crate) fn own_book(command: Option<Command>) -> &'static str
    ensures { result.now ≡ own_book_reason command }
{
    match command {
        Some(Command::Next) => {
            "it doesn't begin with the book of the site's line 13; an old book was put back, or a line was changed or lost"
        }
        _ => "it is not the book of the site's line 13; if it only got longer, make the next site",
    }
}

/// Which line of a file it is, by its text if that is shown, and else by what is wrong with it.
#[tactic(auto, unfolding(crate::specs::Reasons::line_found))]
fn line_found(alloc: Global, k: u32, text: &Excerpt, wrong: &str) -> Result<String, AllocError>
    ensures { IfOk result (λ found. string_bytes found ≡ line_found k text.now wrong.now) }
{
    if text.text().is_empty() {
        return format!(in alloc; "line {k} {wrong}");
    }
    let text = quoted(alloc, text)?;
    format!(in alloc; "line {k} is \"{text}\"")
}

/// A line, and what it must be.
#[tactic(auto, unfolding(crate::specs::Reasons::must_be))]
fn must_be(alloc: Global, found: &str, form: &str) -> Result<String, AllocError>
    ensures { IfOk result (λ text. string_bytes text ≡ found_and_due found.now form.now) }
{
    format!(in alloc; "{found}; it must be {form}")
}

/// What line k of a site is to be.
#[tactic(auto, unfolding(crate::specs::Reasons::site_form))]
fn site_form(k: u32) -> &'static str
    ensures { result.now ≡ site_form k }
{
    match k {
        1 => "height N, N from 1 to 20",
        2 => "master and 64 hexadecimal digits",
        3 => "ca and 4 hexadecimal digits",
        4 => "emm N, N from 32 to 8175",
        5 => "ecm N, N from 32 to 8175",
        6 => "ecm-every N, N from 1 to 4096",
        7 => "crypto-ecms N, N from 1 to 256",
        8 => "period-cryptos N, N from 1 to 65535",
        9 => "messages N, N from 1 to 3 (new sites have 3)",
        10 => "first-word N, N from 0 to 4294967295",
        11 => "last-word N, N from 0 to 4294967295",
        12 => "first-period N, N from 0 to 4294967295",
        _ => "book SIZE DIGEST, SIZE at most 33554432 and DIGEST 64 hexadecimal digits",
    }
}

/// What line k of a site is to be for a command that asks for more than others.
#[tactic(auto, unfolding(crate::specs::Reasons::range_form))]
fn range_form(command: Option<Command>, k: u32) -> &'static str
    ensures { result.now ≡ range_form command k }
{
    match command {
        Some(Command::Air) => match k {
            9 => "messages 3, as sites of next and twin have it",
            11 => {
                "last-word N, N from first-word on; without a control word a site is for next alone"
            }
            _ => site_form(k),
        },
        Some(Command::Next | Command::Twin) if k == 12 => {
            "first-period N, and a number above N must be left; the chain ends here"
        }
        _ => site_form(k),
    }
}

/// Why a site of too few lines is refused by a command.
#[tactic(auto, unfolding(crate::specs::Reasons::short_reason))]
fn short(command: Option<Command>) -> &'static str
    ensures { result.now ≡ short_reason command }
{
    match command {
        Some(Command::Air) => {
            "lines are missing; air takes a site of 13 lines, each with its line feed, as next and twin make it"
        }
        Some(Command::Next) => {
            "lines are missing; next takes a site of 13 lines, or of 12 without a control word, each with its line feed"
        }
        Some(Command::Twin) => {
            "lines are missing; twin takes a site of 13 lines, each with its line feed, as next makes it"
        }
        _ => {
            "lines are missing; a site has lines 1 to 8, height to period-cryptos, and one of next or twin has 13"
        }
    }
}

/// Why a site is refused by a command.
#[tactic(auto, unfolding(crate::specs::Reasons::site_reason))]
pub(crate) fn site(
    alloc: Global,
    command: Option<Command>,
    fault: SiteFault,
    text: &Excerpt,
) -> Result<String, AllocError>
    ensures { IfOk result (λ reason. string_bytes reason ≡ site_reason command fault text.now) }
{
    match fault {
        SiteFault::Line(k) => {
            let found = line_found(alloc, k, text, "is malformed")?;
            let due = must_be(alloc, found.as_str(), site_form(k))?;
            format!(in alloc;
                "{due}; a site's lines have one order, and none before the last is left out"
            )
        }
        SiteFault::Range(k) => {
            let found = line_found(alloc, k, text, "is out of range")?;
            must_be(alloc, found.as_str(), range_form(command, k))
        }
        SiteFault::SamePid => String::from_str(
            alloc,
            "lines 4 and 5 have one PID; EMMs and ECMs need one each",
        ),
        SiteFault::Extra(k) => {
            let found = line_found(alloc, k, text, "is there")?;
            format!(in alloc; "{found}, which is one too many; a site has at most 13")
        }
        SiteFault::Short => String::from_str(alloc, short(command)),
    }
}

/// Why a card is refused.
#[tactic(auto, unfolding(crate::specs::Reasons::card_reason))]
pub(crate) fn card(fault: CardFault) -> &'static str
    ensures { result.now ≡ card_reason fault }
{
    match fault {
        CardFault::Magic => {
            "it is no card of the command card; a card of lcard (a layer card) can't receive"
        }
        CardFault::Version => "it is a card of another version; make it again (sdca card)",
        CardFault::Height => "its height is out of range; make it again (sdca card)",
        CardFault::Leaf => "its leaf is not in a tree of its height; make it again (sdca card)",
        CardFault::Length => {
            "its length is not that of a card of its height; make it again (sdca card)"
        }
        CardFault::Check { .. } => "its bytes were changed; make it again (sdca card)",
        CardFault::NoMemory => "memory ran out",
    }
}

/// What the argument is to be.
#[tactic(auto, unfolding(crate::specs::Reasons::rule_of))]
fn rule(alloc: Global, operand: Operand) -> Result<String, AllocError>
    ensures { IfOk result (λ text. string_bytes text ≡ rule_of operand) }
{
    let name = operand.name();
    let meaning = operand.meaning();
    format!(in alloc; "{name} is {meaning}")
}

/// The rule that a line breaks.
#[tactic(auto, unfolding(crate::specs::Reasons::cause_text))]
fn cause(alloc: Global, cause: LineCause) -> Result<String, AllocError>
    ensures { IfOk result (λ text. string_bytes text ≡ cause_text cause) }
{
    let text = match cause {
        LineCause::Leaf(d) => return leaf(alloc, d),
        LineCause::Held { leaf, line } => {
            return format!(in alloc;
                "its name has receiver {leaf} since line {line}, for good; drop frees no name"
            );
        }
        LineCause::Named(line) => {
            return format!(in alloc;
                "its receiver has a name since line {line}, for good; drop frees no receiver"
            );
        }
        LineCause::ByteOrderMark =>
            "it begins with a byte-order mark; save the file as plain ASCII",
        LineCause::NotText => "it has a byte that is no printable ASCII; is it the right file?",
        LineCause::Long => "it has more than 48 bytes, and no line of such a file has",
        LineCause::Empty => "it is empty",
        LineCause::Return => "it ends with a carriage return; lines end with a line feed alone",
        LineCause::Comment => "it is a comment, and such a file has none",
        LineCause::Tab => "it has a tab; one space stands between words",
        LineCause::Space => "it has a space too many; one stands between words, and none at an end",
        LineCause::Capital => "it has a capital letter; commands and names have none",
        LineCause::Form => {
            "it is none of its lines; numbers are plain decimals, without sign, range or leading zero"
        }
        LineCause::Descends => "its receiver is not above that of the line before",
        LineCause::Unended => "its line feed is missing, so it may be cut off",
        LineCause::Unknown => "no line before it assigns its name",
    };
    String::from_str(alloc, text)
}

/// The receivers of a tree of this height.
#[tactic(auto, unfolding(crate::specs::Reasons::leaf_text))]
fn leaf(alloc: Global, d: u8) -> Result<String, AllocError>
    ensures { IfOk result (λ text. string_bytes text ≡ leaf_text d) }
{
    match Height::new(d) {
        Some(height) => {
            let last = height.leaves() - 1;
            format!(in alloc; "receivers of height {d} are 0 to {last}")
        }
        None => String::from_str(alloc, "its receiver is not in the tree"),
    }
}

/// Why a line of a file is refused.
#[tactic(auto, unfolding(crate::specs::Reasons::line_reason))]
pub(crate) fn line(alloc: Global, operand: Operand, line: &BadLine) -> Result<String, AllocError>
    ensures { IfOk result (λ text. string_bytes text ≡ line_reason operand line.now) }
{
    let found = line_found(alloc, line.number, &line.text, "is refused")?;
    let cause = cause(alloc, line.cause)?;
    let rule = rule(alloc, operand)?;
    format!(in alloc; "{found}: {cause}; {rule}")
}

/// Why a number of this text is refused.
#[tactic(auto, unfolding(crate::specs::Reasons::range_reason))]
pub(crate) fn range(alloc: Global, operand: Operand, text: &str) -> Result<String, AllocError>
    ensures { IfOk result (λ reason. string_bytes reason ≡ range_reason operand text.now) }
{
    let fault = number_fault(text);
    let rule = rule(alloc, operand)?;
    format!(in alloc; "{fault}{rule}")
}

/// What is wrong with a number of this text.
fn number_fault(text: &str) -> &'static str
    ensures { result.now ≡ wrong_number (decimal_value text.now) }
{
    match number_after(b"", text.as_bytes()) {
        Err(NumberFault::Malformed) => "not a decimal number; ",
        Err(NumberFault::TooLarge) => "out of its range; ",
        Ok(_) => "out of its range; ",
    }
}

/// Why the machine did not read or write a file.
#[tactic(auto, unfolding(crate::specs::Reasons::trouble_reason))]
pub(crate) fn trouble(trouble: Trouble) -> &'static str
    ensures { result.now ≡ trouble_reason trouble }
{
    match trouble {
        Trouble::NoSpace => "no space is left on the device; what is there is a part of it",
        Trouble::Denied => "permission denied",
        Trouble::Folder => "it is a folder",
        Trouble::Input => "it is an input and the output, by two names",
        Trouble::Gone => "its reader is gone",
        Trouble::ReadOnly => "its file system is read-only",
        Trouble::TooLarge => "it would be larger than is allowed (ulimit -f)",
        Trouble::Loop => "its path is a loop of links, or too long",
        Trouble::Other => "the machine answered with an I/O error",
    }
}

/// What is wrong with a packet of a clear stream.
#[tactic(auto, unfolding(crate::specs::Reasons::clear_cause))]
fn clear_cause(fault: ClearFault) -> &'static str
    ensures { result.now ≡ clear_cause fault }
{
    match fault {
        ClearFault::AlreadyScrambled(_) => {
            "it is scrambled; it is of a broadcast already, or of another system; air leaves it out"
        }
        ClearFault::PidTaken(..) => {
            "its PID is one of the broadcast; it is of one already, or the encoder makes a CAT; air leaves it out"
        }
        ClearFault::PatForm(..) => {
            "it is no PAT by itself; the PAT is in several packets, or damaged"
        }
        ClearFault::PmtForm(..) => "it is the PMT of a broadcast already; give the clear stream",
        ClearFault::TooManyPids(_) => {
            "its PID is the 257th that carries payload; take services out"
        }
        ClearFault::TooLong(packet) => too_long(packet),
    }
}

/// Why no packet of this number is sent.
#[tactic(auto, unfolding(crate::specs::Reasons::clear_cause))]
fn too_long(packet: u64) -> &'static str
    ensures { result.now ≡ clear_cause (ClearFault.TooLong packet) }
{
    if packet == u64::from(u32::MAX) {
        return "a broadcast has at most 4294967295 packets";
    }
    "no control word of the site is left; make the next site (sdca next)"
}

/// What is wrong with a clear stream.
#[tactic(auto, unfolding(crate::specs::Reasons::clear_refusal))]
fn clear_refusal(refusal: StreamRefusal<ClearFault>) -> &'static str
    ensures { result.now ≡ clear_refusal refusal }
{
    match refusal {
        StreamRefusal::Broken(_) => {
            "there is no whole packet of 188 bytes; packets of 192 or 204 bytes must be cut to 188 first"
        }
        StreamRefusal::TooLong => "a stream has at most 281474976710656 packets",
        StreamRefusal::Packet(fault) => clear_cause(fault),
    }
}

/// What is wrong with a packet of a broadcast.
#[tactic(auto, unfolding(crate::specs::Reasons::stream_cause))]
fn stream_cause(fault: StreamFault) -> &'static str
    ensures { result.now ≡ stream_cause fault }
{
    match fault {
        StreamFault::WrongKey { .. } | StreamFault::WrongWord { .. } => {
            "card and broadcast are of two masters (see sdca show and sdca status), or the message was changed"
        }
        StreamFault::BadEmm(..) => {
            "the EMM is damaged, out of order or of another sender; watch reads streams with damage"
        }
        StreamFault::BadEcm(..) => {
            "the ECM is damaged, out of order or of another sender; watch reads streams with damage"
        }
        StreamFault::Parity(_) => "it is not of this broadcast; watch reads streams with damage",
    }
}

/// What is wrong with a broadcast.
#[tactic(auto, unfolding(crate::specs::Reasons::stream_refused))]
fn stream_refused(refusal: StreamRefusal<StreamFault>) -> &'static str
    ensures { result.now ≡ stream_refused refusal }
{
    match refusal {
        StreamRefusal::Broken(_) => {
            "there is no whole packet of 188 bytes; watch reads streams with damage"
        }
        StreamRefusal::TooLong => "a stream has at most 281474976710656 packets",
        StreamRefusal::Packet(fault) => stream_cause(fault),
    }
}

/// What is wrong, and at which packet.
#[tactic(auto, unfolding(crate::specs::Reasons::at_packet))]
fn at_packet(alloc: Global, packet: u64, why: &str) -> Result<String, AllocError>
    ensures { IfOk result (λ text. string_bytes text ≡ at_packet packet why.now) }
{
    format!(in alloc; "packet {packet}: {why}")
}

/// Why a clear stream is refused.
#[tactic(auto, unfolding(crate::specs::Reasons::clear_reason))]
pub(crate) fn clear(alloc: Global, refusal: StreamRefusal<ClearFault>) -> Result<String, AllocError>
    ensures { IfOk result (λ text. string_bytes text ≡ clear_reason refusal) }
{
    let packet = match refusal {
        StreamRefusal::Broken(found) => found.packet,
        StreamRefusal::TooLong => MOST_PACKETS,
        StreamRefusal::Packet(fault) => fault.packet(),
    };
    at_packet(alloc, packet, clear_refusal(refusal))
}

/// Why a broadcast is refused.
#[tactic(auto, unfolding(crate::specs::Reasons::stream_reason))]
pub(crate) fn stream(
    alloc: Global,
    refusal: StreamRefusal<StreamFault>,
) -> Result<String, AllocError>
    ensures { IfOk result (λ text. string_bytes text ≡ stream_reason refusal) }
{
    let packet = match refusal {
        StreamRefusal::Broken(found) => found.packet,
        StreamRefusal::TooLong => MOST_PACKETS,
        StreamRefusal::Packet(fault) => fault.packet(),
    };
    at_packet(alloc, packet, stream_refused(refusal))
}

/// Which limit of a book is exceeded.
#[tactic(auto, unfolding(crate::specs::Reasons::book_limit_reason))]
fn book_limit(limit: BookLimit) -> &'static str
    ensures { result.now ≡ book_limit_reason limit }
{
    match limit {
        BookLimit::Lines => "a book has at most 1048576 lines",
        BookLimit::Periods => "a book has at most 1023 lines period",
        BookLimit::Revoked(_) => "at most 65536 receivers may be revoked in a period",
    }
}

/// Which limit is exceeded.
#[tactic(auto, unfolding(crate::specs::Reasons::limit_reason))]
pub(crate) fn limit(kind: LimitKind) -> &'static str
    ensures { result.now ≡ limit_reason kind }
{
    match kind {
        LimitKind::SiteBytes => "a site has at most 4096 bytes; is it the right file?",
        LimitKind::BookBytes => {
            "a book, accounts, leaves and a script have at most 33554432 bytes"
        }
        LimitKind::CardBytes => "a card has at most 8192 bytes; is it the right file?",
        LimitKind::Book(limit) => book_limit(limit),
        LimitKind::TrialHeight => "trial takes a height of at most 6; use head and receive",
        LimitKind::TrialPackets => "trial takes at most 65536 packets; use head and receive",
        LimitKind::Traced => "trace revokes at most 65536 receivers",
        LimitKind::FieldHeight => "field takes a height of at most 6; use head and receive",
        LimitKind::FieldPackets => "field takes at most 16384 packets; use head and receive",
        LimitKind::FieldEvents => "field takes at most 524288 events",
    }
}

/// Why receiver u opened nothing in period q: it is revoked.
#[tactic(auto, unfolding(crate::specs::Reasons::revoked_reason))]
pub(crate) fn revoked(alloc: Global, u: u32, q: u32) -> Result<String, AllocError>
    ensures { IfOk result (λ text. string_bytes text ≡ revoked_reason u q) }
{
    format!(in alloc;
        "receiver {u} is revoked in period {q}; OUT has what it was entitled to; a later subscribe entitles it again"
    )
}

/// Why receiver u opened nothing in period q: it did not hear its entitlement.
#[tactic(auto, unfolding(crate::specs::Reasons::unheard_reason))]
pub(crate) fn unheard(alloc: Global, u: u32, q: u32) -> Result<String, AllocError>
    ensures { IfOk result (λ text. string_bytes text ≡ unheard_reason u q) }
{
    format!(in alloc;
        "no set of period {q} with receiver {u} arrived; packets were lost, or the stream begins late"
    )
}

/// Why a broadcast isn't closed.
#[tactic(auto, unfolding(crate::specs::Reasons::unclosed_reason))]
pub(crate) fn unclosed() -> &'static str
    ensures { result.now ≡ unclosed_reason }
{
    "it broke off before its closing message, or its end was lost"
}

/// Why clear packets are missing.
#[tactic(auto, unfolding(crate::specs::Reasons::gaps_reason))]
pub(crate) fn gaps() -> &'static str
    ensures { result.now ≡ gaps_reason }
{
    "packets were lost on the way; OUT has all others"
}

/// Why nothing was received.
#[tactic(auto, unfolding(crate::specs::Reasons::no_cat_reason))]
pub(crate) fn no_cat() -> &'static str
    ensures { result.now ≡ no_cat_reason }
{
    "no CAT names the card's system; it is of another system, or no broadcast (see sdca tables)"
}

/// Why two broadcasts may not share one set of cards.
#[tactic(auto, unfolding(crate::specs::Reasons::clash_reason))]
pub(crate) fn clash(clash: Clash) -> &'static str
    ensures { result.now ≡ clash_reason clash }
{
    match clash {
        Clash::Heights => "its height is another one; take sites of one chain (next, twin)",
        Clash::Masters => {
            "its master is another one (see sdca status); take sites of one chain (next, twin)"
        }
        Clash::NoWords(_) => "it has no control word; make the next site (sdca next)",
        Clash::SharedWord(_) => {
            "it has a control word of the other site; give two different sites of one chain (next, twin)"
        }
        Clash::Books { .. } => "it disagrees with the other book there; use one book for both",
    }
}

/// Why a broadcast ended before its stream.
#[tactic(auto, unfolding(crate::specs::Reasons::used_up_reason))]
pub(crate) fn used_up() -> &'static str
    ensures { result.now ≡ used_up_reason }
{
    "no number or control word is left; start again with the next site (sdca next), and more words"
}
