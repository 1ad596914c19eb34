//! A refused line: its number, the first rule that it breaks, and its text as far as it may be shown.

ghost use Rattle.std.specs.Prelude.{◌≡◌, ◌≤◌, ◌<◌, length, take, ◌==◌};
ghost use Rattle.std.specs.List.{list_all, list_any};
ghost use Rattle.sd_command_base.specs.BadLines.{is_text_byte as may_be_shown, is_text as is_shown, excerpt_of};
ghost use Rattle.sd_command_base.specs.BadLines.{line_numbered as numbered, has_stray_space as has_stray};
ghost use Rattle.sd_command_base.specs.BadLines.{has_double_space as has_double, is_capital as is_capital_letter};
ghost use Rattle.sd_command_base.specs.BadLines.{layout_of as layout, spelling_of as spelling};
ghost use Rattle.sd_command_base.specs.BadLines.{bad_line as line_refused, malformed as line_malformed};
ghost use Rattle.sd_command_base.specs.BadLines.{leaf_cause as cause_of_leaf, bad_leaf as leaf_refused};
ghost use Rattle.sd_command_base.specs.BadLines.{site_excerpt as shown_of_site};

use sd_base::{NumberFault, next_line, number_after};
use sd_site_cards::SiteFault;
use sd_tree_keys::Height;

/// As many bytes of a refused line as are shown: no good line of a book, of accounts or of leaves is longer.
pub const MOST_SHOWN: usize = 48;

/// As many bytes of a refused line of a site as are shown: no secret of a site is so short.
pub const MOST_SITE_SHOWN: usize = 24;

const BYTE_ORDER_MARK: [u8; 3] = [0xef, 0xbb, 0xbf];

/// A line as far as it is shown to a user: its bytes, and zeros behind them.
#[derive(Clone, Copy)]
pub struct Excerpt {
    pub(crate) bytes: [u8; MOST_SHOWN],
    pub(crate) length: u8,
}

impl Excerpt {
    /// The bytes of the line; none if it isn't shown.
    pub fn text(&self) -> &[u8]
        ensures { result.now ≡ take self.now.length self.now.bytes }
    {
        match self.bytes.get(..self.length as usize) {
            Some(text) => text,
            None => &self.bytes,
        }
    }
}

/// Why a line of a file is refused, by the first rule that it breaks.
#[derive(Clone, Copy)]
pub enum LineCause {
    /// It begins with a byte-order mark, EF BB BF.
    ByteOrderMark,
    /// It has a byte that is neither printable ASCII nor a tab nor a carriage return.
    NotText,
    /// It has more than [`MOST_SHOWN`] bytes.
    Long,
    /// It has no byte.
    Empty,
    /// It ends with a carriage return.
    Return,
    /// It begins with `#`.
    Comment,
    /// It has a tab.
    Tab,
    /// It begins or ends with a space, or two stand side by side.
    Space,
    /// It has a capital letter, A to Z.
    Capital,
    /// None of these, and it is none of the lines that such a file has.
    Form,
    /// Its receiver is not in the tree, which has this height.
    Leaf(u8),
    /// In a file of leaves: its receiver is not above that of the line before.
    Descends,
    /// It is the last line of a chain's book, and has no line feed.
    Unended,
    /// In a file of accounts: its name has this receiver since that line.
    Held { leaf: u32, line: u32 },
    /// In a file of accounts: its receiver has a name since this line.
    Named(u32),
    /// In a file of accounts: its name was not assigned before.
    Unknown,
}

/// A line of a file that is refused.
#[derive(Clone, Copy)]
pub struct BadLine {
    /// Its number, counted from 1.
    pub number: u32,
    /// The first rule that it breaks.
    pub cause: LineCause,
    /// Its text, if it may be shown.
    pub text: Excerpt,
}

/// The line of this number, which breaks this rule.
#[tactic(auto, unfolding(crate::specs::BadLines::bad_line))]
pub fn refused_line(cause: LineCause, k: u32, bytes: &[u8]) -> BadLine
    ensures { result ≡ line_refused cause k bytes.now }
{
    BadLine {
        number: k,
        cause,
        text: shown(MOST_SHOWN, line_numbered(k, bytes)),
    }
}

/// The line of this number, which is none of the lines that such a file has.
#[tactic(auto, unfolding(crate::specs::BadLines::malformed))]
pub fn malformed(k: u32, bytes: &[u8]) -> BadLine
    ensures { result ≡ line_malformed k bytes.now }
{
    refused_line(layout_of(line_numbered(k, bytes)), k, bytes)
}

/// The line of this number, which isn't the next one of a file of leaves of a tree of this height.
#[tactic(auto, unfolding(crate::specs::BadLines::bad_leaf))]
pub fn bad_leaf(h: Height, k: u32, bytes: &[u8]) -> BadLine
    ensures { result ≡ leaf_refused h k bytes.now }
{
    refused_line(leaf_cause(h, line_numbered(k, bytes)), k, bytes)
}

/// The line that the fault of a site names, if it may be shown.
#[tactic(auto, using(crate::proofs::BadLines::nothing_shown), unfolding(crate::specs::BadLines::site_excerpt))]
pub fn site_excerpt(fault: SiteFault, bytes: &[u8]) -> Excerpt
    ensures { result ≡ shown_of_site fault bytes.now }
{
    match fault {
        SiteFault::Line(k) | SiteFault::Range(k) | SiteFault::Extra(k) => {
            shown(MOST_SITE_SHOWN, line_numbered(k, bytes))
        }
        SiteFault::SamePid | SiteFault::Short => shown(MOST_SITE_SHOWN, b""),
    }
}

/// The line, if it is a text of at most so many bytes; else an empty one.
#[tactic(auto, using(crate::proofs::BadLines::zeros_behind), unfolding(crate::specs::BadLines::excerpt_of))]
fn shown(most: usize, line: &[u8]) -> Excerpt
    requires { most ≤ 48 }
    ensures { result ≡ excerpt_of most line.now }
{
    let mut bytes = [0; MOST_SHOWN];
    if line.len() <= most && is_text(line) {
        bytes[..line.len()].copy_from_slice(line);
        return Excerpt {
            bytes,
            length: line.len() as u8,
        };
    }
    Excerpt { bytes, length: 0 }
}

/// The line of this number, counted from 1; an empty one if there is none.
#[tactic(auto, unfolding(crate::specs::BadLines::line_numbered))]
pub fn line_numbered(k: u32, bytes: &[u8]) -> &[u8]
    ensures { result.now ≡ numbered k bytes.now }
{
    let mut before = k.saturating_sub(1);
    let mut rest = bytes;
    while let Some((line, after)) = next_line(rest) {
        if before == 0 {
            return line;
        }
        before -= 1;
        rest = after;
    }
    &[]
}

/// The rule that this line of a file of leaves breaks.
#[tactic(auto, using(crate::proofs::BadLines::not_above, crate::proofs::BadLines::not_there, crate::proofs::BadLines::too_large, crate::proofs::BadLines::no_number))]
fn leaf_cause(h: Height, line: &[u8]) -> LineCause
    ensures { result ≡ cause_of_leaf h line.now }
{
    match number_after(b"", line) {
        Ok(number) => {
            if number < h.leaves() {
                LineCause::Descends
            } else {
                LineCause::Leaf(h.get())
            }
        }
        Err(NumberFault::TooLarge) => LineCause::Leaf(h.get()),
        Err(NumberFault::Malformed) => layout_of(line),
    }
}

/// The first rule of the layout of lines that this line breaks.
#[tactic(auto, unfolding(crate::specs::BadLines::layout_of))]
fn layout_of(line: &[u8]) -> LineCause
    ensures { result ≡ layout line.now }
{
    if line.starts_with(&BYTE_ORDER_MARK) {
        LineCause::ByteOrderMark
    } else if !is_text(line) {
        LineCause::NotText
    } else if line.len() > MOST_SHOWN {
        LineCause::Long
    } else if line.is_empty() {
        LineCause::Empty
    } else if line[line.len() - 1] == b'\r' {
        LineCause::Return
    } else if line[0] == b'#' {
        LineCause::Comment
    } else {
        spelling_of(line)
    }
}

/// The first rule of the bytes within a line that this line breaks.
#[tactic(auto, unfolding(crate::specs::BadLines::spelling_of))]
fn spelling_of(line: &[u8]) -> LineCause
    ensures { result ≡ spelling line.now }
{
    if has_tab(line) {
        LineCause::Tab
    } else if has_stray_space(line) {
        LineCause::Space
    } else if has_capital(line) {
        LineCause::Capital
    } else {
        LineCause::Form
    }
}

fn has_tab(line: &[u8]) -> bool
    ensures { result ≡ list_any (λ byte. byte == 9) line.now }
{
    line.iter().any(|byte| *byte == b'\t')
}

fn has_capital(line: &[u8]) -> bool
    ensures { result ≡ list_any is_capital_letter line.now }
{
    line.iter().any(|byte| is_capital(*byte))
}

fn is_capital(byte: u8) -> bool
    ensures { result ≡ is_capital_letter byte }
{
    (b'A'..=b'Z').contains(&byte)
}

/// Whether a space stands at an end of the line or beside another.
#[tactic(auto, unfolding(crate::specs::BadLines::has_stray_space))]
fn has_stray_space(line: &[u8]) -> bool
    ensures { result ≡ has_stray line.now }
{
    line.first() == Some(&b' ') || line.last() == Some(&b' ') || has_double_space(line)
}

/// Whether two spaces stand side by side.
fn has_double_space(line: &[u8]) -> bool
    ensures { result ≡ has_double line.now }
{
    let mut before = 0;
    for byte in line {
        if before == b' ' && *byte == b' ' {
            return true;
        }
        before = *byte;
    }
    false
}

fn is_text(line: &[u8]) -> bool
    ensures { result ≡ is_shown line.now }
{
    line.iter().all(|byte| is_text_byte(*byte))
}

fn is_text_byte(byte: u8) -> bool
    ensures { result ≡ may_be_shown byte }
{
    (0x20..=0x7e).contains(&byte) || byte == b'\t' || byte == b'\r'
}
