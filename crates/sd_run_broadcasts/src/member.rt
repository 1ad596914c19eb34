//! The members of a report's line.

ghost use Rattle.std.specs.Prelude.{◌≡◌, ◌-◌, ◌++◌, ◌∷◌, [], OnOk, length, take, decimal};
ghost use Rattle.json.specs.Token.{key as key_token, number as number_token};
ghost use Rattle.sd_run_broadcasts.specs.MemberTokens.{EndsLine, HasFeed, text_tokens};
ghost use Rattle.sd_run_broadcasts.specs.Members.{text_of_status};

use json::Writer;
use sd_command_base::{Status, status_line};
use std::alloc::{AllocError, Global};

/// Writes a member that is a number.
pub(crate) fn write_number(out: &mut Writer, name: &str, number: u64) -> Result<(), AllocError>
    ensures tokens { OnOk result (out.new.tokens
        ≡ out.old.tokens ++ key_token name.now ∷ number_token (decimal number) ∷ []) }
    ensures before { out.new.before ≡ out.old.before }
{
    out.key(name)?;
    out.u64(number)
}

/// Writes the line of a status, without its line feed, unless it has none.
pub(crate) fn write_status(
    alloc: Global,
    out: &mut Writer,
    name: &str,
    status: Status,
) -> Result<(), AllocError>
    requires { HasFeed status }
    ensures tokens { OnOk result (out.new.tokens ≡ out.old.tokens ++ text_tokens name.now (text_of_status status)) }
    ensures before { out.new.before ≡ out.old.before }
{
    let line = status_line(alloc, status)?;
    write_text(out, name, without_feed(line.as_str()))
}

/// Writes a text, unless it is empty.
fn write_text(out: &mut Writer, name: &str, text: &str) -> Result<(), AllocError>
    ensures tokens { OnOk result (out.new.tokens ≡ out.old.tokens ++ text_tokens name.now text.now) }
    ensures before { out.new.before ≡ out.old.before }
{
    if text.is_empty() {
        return Ok(());
    }
    out.key(name)?;
    out.string(text)
}

/// The line without its line feed.
fn without_feed(line: &str) -> &str
    requires { EndsLine line.now }
    ensures { result.now ≡ take (length line.now - 1) line.now }
{
    &line[..line.len().saturating_sub(1)]
}
