ghost use Rattle.std.specs.Prelude.{◌≡◌, ◌++◌, IfOk, OnOk, string_bytes};
ghost use Rattle.std.specs.List.{flat_map};
ghost use Rattle.std.specs.Str.{chars};
ghost use Rattle.sd_command_base.specs.Escaped.{escaped as escaped_text, escaped_byte, escaped_char};
ghost use Rattle.sd_command_base.specs.Escaped.{is_control_character as is_control_char, quoted as quoted_text};
ghost use Rattle.sd_command_base.specs.Escaped.{shown_byte};

use crate::Excerpt;
use std::alloc::{AllocError, Global};
use std::fmt::Write;

/// The text as a line quotes it: with its control characters it could do anything at a terminal.
#[tactic(auto, unfolding(crate::specs::Escaped::escaped))]
pub fn escaped(alloc: Global, text: &str) -> Result<String, AllocError>
    ensures { IfOk result (λ out. string_bytes out ≡ escaped_text text.now) }
{
    let mut out = String::new(alloc);
    push_chars(alloc, &mut out, &chars_of(alloc, text)?)?;
    Ok(out)
}

/// The line as far as it is shown, as a line quotes it: with a tab it could look like another.
#[tactic(auto, unfolding(crate::specs::Escaped::quoted))]
pub fn quoted(alloc: Global, excerpt: &Excerpt) -> Result<String, AllocError>
    ensures { IfOk result (λ out. string_bytes out ≡ quoted_text excerpt.now) }
{
    let mut out = String::new(alloc);
    push_shown(alloc, &mut out, excerpt.text())?;
    Ok(out)
}

/// The bytes, those of printable ASCII as they are.
fn push_shown(alloc: Global, out: &mut String, bytes: &[u8]) -> Result<(), AllocError>
    ensures { OnOk result (string_bytes out.new ≡ string_bytes out.old ++ flat_map shown_byte bytes.now) }
{
    for byte in bytes {
        push_shown_byte(alloc, out, *byte)?;
    }
    Ok(())
}

/// A byte of printable ASCII as it is, another by its hexadecimal digits.
#[tactic(auto, unfolding(crate::specs::Escaped::shown_byte))]
fn push_shown_byte(alloc: Global, out: &mut String, byte: u8) -> Result<(), AllocError>
    ensures { OnOk result (string_bytes out.new ≡ string_bytes out.old ++ shown_byte byte) }
{
    if (0x20..=0x7e).contains(&byte) {
        out.push(char::from(byte))
    } else {
        push_byte(alloc, out, byte)
    }
}

/// The characters of a text.
fn chars_of(alloc: Global, text: &str) -> Result<Vec<char>, AllocError>
    ensures { IfOk result (λ all. all.items ≡ chars text.now) }
{
    text.chars().collect(alloc)
}

/// The characters, one after another.
fn push_chars(alloc: Global, out: &mut String, all: &[char]) -> Result<(), AllocError>
    ensures { OnOk result (string_bytes out.new ≡ string_bytes out.old ++ flat_map escaped_char all.now) }
{
    for c in all {
        push_char(alloc, out, *c)?;
    }
    Ok(())
}

/// A character, or its bytes if it is a control character.
#[tactic(auto, unfolding(crate::specs::Escaped::escaped_char))]
fn push_char(alloc: Global, out: &mut String, c: char) -> Result<(), AllocError>
    ensures { OnOk result (string_bytes out.new ≡ string_bytes out.old ++ escaped_char c) }
{
    if !is_control(c) {
        return out.push(c);
    }
    let mut alone = String::new(alloc);
    alone.push(c)?;
    push_bytes(alloc, out, alone.as_bytes())
}

/// Whether a character is a control character.
fn is_control(c: char) -> bool
    ensures { result ≡ is_control_char c }
{
    let code = u32::from(c);
    code < 0x20 || (code >= 0x7f && code < 0xa0)
}

/// The bytes, each by its hexadecimal digits.
fn push_bytes(alloc: Global, out: &mut String, bytes: &[u8]) -> Result<(), AllocError>
    ensures { OnOk result (string_bytes out.new ≡ string_bytes out.old ++ flat_map escaped_byte bytes.now) }
{
    for byte in bytes {
        push_byte(alloc, out, *byte)?;
    }
    Ok(())
}

/// A byte by its hexadecimal digits.
#[tactic(auto, unfolding(crate::specs::Escaped::escaped_byte))]
fn push_byte(alloc: Global, out: &mut String, byte: u8) -> Result<(), AllocError>
    ensures { OnOk result (string_bytes out.new ≡ string_bytes out.old ++ escaped_byte byte) }
{
    let digits = hex::encode(alloc, &[byte])?;
    write!(out, "\\x{digits}")
}
