ghost use Rattle.std.specs.Prelude.{◌≡◌, None, codes, option_map};
ghost use Rattle.sd_base.specs.Number.{fitting_u32, decimal_value, rest_after};
ghost use Rattle.sd_spec.specs.declared.event.Event.TheVariants.{Lose, Off, Offer, On};
ghost use Rattle.sd_field.specs.Line.{event_leaf, pair_in, events_in_run, times_in};
ghost use Rattle.sd_field.specs.Script.{single_event, event_by_word, count_of, event_count, leaf_and_count, repeated};
ghost use Rattle.sd_field.specs.Script.{script_line_event};

use sd_base::{NumberFault, cut_at_space, number_after};
use sd_spec::Event;
use sd_tree_keys::{Height, Leaf};

/// The most events that one line of a script says [this project, docs/FORMATS.md, Field].
const MOST_TIMES: u32 = 65_536;

/// Why a line of a script says no events for a tree.
#[derive(Clone, Copy)]
pub(crate) enum LineFault {
    /// The line isn't in the grammar.
    Form,
    /// The leaf on the line isn't in the tree.
    Leaf,
}

/// The event that a line says, and how often.
#[tactic(auto, unfolding(crate::specs::Script::script_line_event, crate::specs::Script::single_event, crate::specs::Script::sends_said))]
pub(crate) fn run_on(line: &[u8], h: Height) -> Result<(Event, u32), LineFault>
    ensures { result ≡ events_in_run h (script_line_event line.now) }
{
    if let Some(text) = text_after(b"subscribe ", line) {
        return Ok((Event::Subscribe(leaf_in(text, h)?), 1));
    }
    if let Some(text) = text_after(b"revoke ", line) {
        return Ok((Event::Revoke(leaf_in(text, h)?), 1));
    }
    match text_after(b"send ", line) {
        Some(text) => Ok((Event::Send, times_in(text)?)),
        None => run_at_leaf(line, h),
    }
}

/// The event of a leaf's receiver that a line says, and how often.
#[tactic(auto, unfolding(crate::specs::Script::single_event, crate::specs::Script::repeated))]
fn run_at_leaf(line: &[u8], h: Height) -> Result<(Event, u32), LineFault>
    ensures { result ≡ events_in_run h
        (event_by_word (rest_after (codes "offer ") line.now) (repeated Offer)
        (event_by_word (rest_after (codes "lose ") line.now) (repeated Lose)
        (event_by_word (rest_after (codes "off ") line.now) (single_event Off)
        (event_by_word (rest_after (codes "on ") line.now) (single_event On) None)))) }
{
    if let Some(text) = text_after(b"offer ", line) {
        let (leaf, times) = leaf_times(text, h)?;
        return Ok((Event::Offer(leaf), times));
    }
    if let Some(text) = text_after(b"lose ", line) {
        let (leaf, times) = leaf_times(text, h)?;
        return Ok((Event::Lose(leaf), times));
    }
    if let Some(text) = text_after(b"off ", line) {
        return Ok((Event::Off(leaf_in(text, h)?), 1));
    }
    match text_after(b"on ", line) {
        Some(text) => Ok((Event::On(leaf_in(text, h)?), 1)),
        None => Err(LineFault::Form),
    }
}

/// The text after a word, if the line begins with it.
#[tactic(auto, unfolding(sd_base::specs::Number::rest_after))]
fn text_after<'a>(word: &[u8], line: &'a [u8]) -> Option<&'a [u8]>
    ensures { option_map (λ text. text.now) result ≡ rest_after word.now line.now }
{
    line.strip_prefix(word)
}

/// The leaf that a text says.
fn leaf_in(text: &[u8], h: Height) -> Result<Leaf, LineFault>
    ensures { result ≡ event_leaf h (decimal_value text.now) }
{
    match number_in(text) {
        Ok(u) => Leaf::new(h, u).ok_or(LineFault::Leaf),
        Err(NumberFault::TooLarge) => Err(LineFault::Leaf),
        Err(NumberFault::Malformed) => Err(LineFault::Form),
    }
}

/// The number of events that a text says.
#[tactic(auto, using(crate::proofs::Scripts::times_said, crate::proofs::Scripts::times_unsaid))]
fn times_in(text: &[u8]) -> Result<u32, LineFault>
    ensures { result ≡ times_in (count_of text.now) }
{
    match number_in(text) {
        Ok(times) => counted(times),
        Err(_) => Err(LineFault::Form),
    }
}

/// The number, if one line may say it.
fn counted(times: u32) -> Result<u32, LineFault>
    ensures { result ≡ times_in (event_count times) }
{
    if times >= 1 && times <= MOST_TIMES {
        Ok(times)
    } else {
        Err(LineFault::Form)
    }
}

/// The number that a text says.
#[tactic(auto, unfolding(sd_base::specs::Number::rest_after))]
fn number_in(text: &[u8]) -> Result<u32, NumberFault>
    ensures { result ≡ fitting_u32 (decimal_value text.now) }
{
    number_after(b"", text)
}

/// The leaf and the number of events in a text, with one space between them.
#[tactic(auto, unfolding(crate::specs::Script::leaf_and_count))]
fn leaf_times(text: &[u8], h: Height) -> Result<(Leaf, u32), LineFault>
    ensures { result ≡ pair_in h (leaf_and_count text.now) }
{
    let (leaf, times) = cut_at_space(text).ok_or(LineFault::Form)?;
    let times = times_in(times)?;
    let leaf = leaf_in(leaf, h)?;
    Ok((leaf, times))
}
