ghost use Rattle.std.specs.Prelude.{◌≡◌, ◌++◌, All, IfOk, OnOk, string_bytes};
ghost use Rattle.sd_tree_keys.specs.SetNames.{IsOfHeight};
ghost use Rattle.sd_command_base.specs.Periods.{set_line, period_text as text_of};

use crate::listing::Listing;
use sd_tree_keys::{Height, SetName};
use std::alloc::{AllocError, Global};
use std::fmt::Write;

/// The lines of a period with this number of revoked leaves and these sets.
pub(crate) fn period_text<L: Listing>(
    alloc: Global,
    h: Height,
    q: u32,
    revoked: usize,
    sets: &[SetName],
    listing: &L,
) -> Result<String, AllocError>
    requires fits { L.fits listing.now h }
    requires names { All (IsOfHeight h) sets.now }
    ensures { IfOk result (λ text. string_bytes text ≡ text_of (L.ends listing.now h) q revoked sets.now) }
{
    let count = sets.len();
    let mut text = format!(in alloc; "period {q} revoked {revoked} sets {count}\n")?;
    for name in sets {
        push_set(&mut text, *name, listing.end(h, *name))?;
    }
    Ok(text)
}

/// The line of a set with this end, after the text.
#[tactic(auto, unfolding(crate::specs::Periods::set_line))]
fn push_set(text: &mut String, name: SetName, end: &str) -> Result<(), AllocError>
    ensures { OnOk result (string_bytes text.new ≡ string_bytes text.old ++ set_line end.now name) }
{
    match name {
        SetName::Whole => write!(text, "all{end}"),
        SetName::Diff { i, j } => write!(text, "{i} {j}{end}"),
    }
}
