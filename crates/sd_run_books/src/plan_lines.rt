//! The lines that are printed.

ghost use Rattle.std.specs.Prelude.{◌≡◌, ◌^◌, ◌<◌, ◌≤◌, ◌++◌, OnOk, string_bytes};
ghost use Rattle.sd_run_books.specs.Air.{plan_clear_line, end_lines, message_count_line, plan_period_line, place_line};
ghost use Rattle.sd_run_books.specs.Air.{rate_line};
ghost use Rattle.sd_run_books.specs.Air.{total_lines};

use std::alloc::AllocError;
use std::fmt::Write;

/// What is printed of a period.
#[derive(Clone, Copy)]
pub(crate) struct PeriodNumbers {
    pub(crate) period: u64,
    pub(crate) revoked: usize,
    pub(crate) sets: usize,
    pub(crate) entitlements: u16,
    pub(crate) cryptos: u32,
}

/// Puts the line of a period after the text.
#[tactic(auto, unfolding(crate::specs::Air::plan_period_line))]
pub(crate) fn push_period(text: &mut String, numbers: PeriodNumbers) -> Result<(), AllocError>
    ensures { OnOk result (string_bytes text.new ≡ string_bytes text.old
        ++ plan_period_line numbers.period numbers.revoked numbers.sets numbers.entitlements
        numbers.cryptos) }
{
    let period = numbers.period;
    let revoked = numbers.revoked;
    let sets = numbers.sets;
    let entitlements = numbers.entitlements;
    let cryptos = numbers.cryptos;
    write!(
        text,
        "period {period} revoked {revoked} sets {sets} entitlements {entitlements} cryptos {cryptos}\n"
    )
}

/// Puts the lines of messages and of added packets after the text.
#[tactic(auto, using(std::proofs::lemmas::List::append_assoc))]
pub(crate) fn push_totals(
    text: &mut String,
    messages: u64,
    parts: u8,
    packets: u32,
    added: u64,
) -> Result<(), AllocError>
    requires some { 1 ≤ packets }
    requires fits { added < 2 ^ 60 }
    ensures { OnOk result (string_bytes text.new ≡ string_bytes text.old ++ total_lines messages parts packets added) }
{
    push_messages(text, messages, parts)?;
    push_clear(text, packets, added)?;
    let rate = (1000 * u128::from(added)).div_ceil(u128::from(packets));
    push_rate(text, rate)
}

/// Puts the line of messages after the text.
#[tactic(auto, unfolding(crate::specs::Air::message_count_line))]
fn push_messages(text: &mut String, messages: u64, parts: u8) -> Result<(), AllocError>
    ensures { OnOk result (string_bytes text.new ≡ string_bytes text.old ++ message_count_line messages parts) }
{
    write!(text, "messages {messages} parts {parts}\n")
}

/// Appends the line of the packets that are added to the clear ones.
#[tactic(auto, unfolding(crate::specs::Air::plan_clear_line))]
fn push_clear(text: &mut String, packets: u32, added: u64) -> Result<(), AllocError>
    requires { added < 2 ^ 60 }
    ensures { OnOk result (string_bytes text.new ≡ string_bytes text.old ++ plan_clear_line packets added) }
{
    let broadcast = u64::from(packets) + added;
    write!(
        text,
        "clear {packets} added {added} broadcast {broadcast}\n"
    )
}

/// Appends the line of the packets that are added to a thousand.
#[tactic(auto, unfolding(crate::specs::Air::rate_line))]
fn push_rate(text: &mut String, rate: u128) -> Result<(), AllocError>
    requires { rate < 2 ^ 72 }
    ensures { OnOk result (string_bytes text.new ≡ string_bytes text.old ++ rate_line rate) }
{
    let whole = 1000 + rate;
    write!(text, "per 1000 added {rate} broadcast {whole}\n")
}

/// Puts the lines of the first, the last and the next period and control word after the text.
#[tactic(auto, using(std::proofs::lemmas::List::append_assoc))]
pub(crate) fn push_ends(
    text: &mut String,
    first_period: u64,
    first_word: u64,
    last_period: u64,
    last_word: u64,
) -> Result<(), AllocError>
    requires period { last_period < 2 ^ 33 }
    requires word { last_word < 2 ^ 33 }
    ensures { OnOk result (string_bytes text.new ≡ string_bytes text.old
        ++ end_lines first_period first_word last_period last_word) }
{
    push_place(text, "first", first_period, first_word)?;
    push_place(text, "last", last_period, last_word)?;
    push_place(text, "next", last_period + 1, last_word + 1)
}

/// Puts the line of this period and this control word after the text: the first, the last or the next ones.
#[tactic(auto, unfolding(crate::specs::Air::place_line))]
fn push_place(text: &mut String, which: &str, period: u64, word: u64) -> Result<(), AllocError>
    ensures { OnOk result (string_bytes text.new ≡ string_bytes text.old ++ place_line which.now period word) }
{
    write!(text, "{which} period {period} word {word}\n")
}
