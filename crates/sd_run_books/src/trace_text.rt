ghost use Rattle.std.specs.Prelude.{◌≡◌, ◌++◌, IfOk, OnOk, string_bytes};
ghost use Rattle.sd_run_books.specs.Trace.{traced_line, silent_line, trace_text as text_of};

use sd_cover_tracing::Found;
use std::alloc::{AllocError, Global};
use std::fmt::Write;

/// A line for each leaf that was found, and that of the probe that opened nothing.
#[tactic(auto, unfolding(crate::specs::Trace::trace_text))]
pub(crate) fn trace_text(alloc: Global, found: &[Found]) -> Result<String, AllocError>
    ensures { IfOk result (λ text. string_bytes text ≡ text_of found.now) }
{
    let mut text = String::new(alloc);
    for next in found {
        push_found(&mut text, *next)?;
    }
    push_silent(&mut text)?;
    Ok(text)
}

/// The line of a leaf that was found, after the text.
#[tactic(auto, unfolding(crate::specs::Trace::traced_line))]
fn push_found(text: &mut String, found: Found) -> Result<(), AllocError>
    ensures { OnOk result (string_bytes text.new ≡ string_bytes text.old ++ traced_line found) }
{
    let leaf = found.leaf.get();
    let trials = found.trials;
    let splits = found.splits;
    write!(text, "leaf {leaf} trials {trials} splits {splits}\n")
}

/// The line of the probe that opened nothing, after the text.
fn push_silent(text: &mut String) -> Result<(), AllocError>
    ensures { OnOk result (string_bytes text.new ≡ string_bytes text.old ++ silent_line) }
{
    text.push_str("silent trials 1\n")
}
