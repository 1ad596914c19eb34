ghost use Rattle.std.specs.Prelude.{◌≡◌, ◌^◌, ◌<◌, ◌/◌, string_bytes, length, IfOk};
ghost use Rattle.sd_site_cards.specs.SiteFields.{site_fields_of};
ghost use Rattle.sd_command_base.specs.Outcome.{IsEnding};
ghost use Rattle.sd_command_base.specs.Printed.{MemoryOutcome};
ghost use Rattle.sd_run_broadcasts.specs.Trial.{AddsLine, trial_clear_line, lines_of_trial, trial_receiver_line};
ghost use Rattle.sd_run_broadcasts.specs.Trial.{told_line};

use crate::trial_hear::hear;
use sd_base::Steps;
use sd_command_base::Status;
use sd_packet::SIZE;
use sd_receive::Receiver;
use sd_site_cards::{Card, Site};
use sd_tree_keys::Leaf;
use std::alloc::{AllocError, Global};
use std::fmt::Write;
use std::sync::ledger::Ledger;

/// The line of a clear stream of `clear` bytes and its broadcast, and then that of each leaf's receiver [this project,
/// docs/FORMATS.md, Trial]. The receivers are made and run one after the other. Each takes at most 1 MB, and room for
/// `clear` bytes.
pub fn lines<L: Ledger>(
    alloc: Global,
    site: &Site,
    clear: usize,
    sent: &[u8],
    steps: &mut Steps<L>,
) -> Result<String, Status>
    ensures { MemoryOutcome (λ text. string_bytes text)
        (lines_of_trial (site_fields_of site.now) sent.now (trial_clear_line (clear / 188) (length sent.now / 188))
        (2 ^ site.now.height)) result }
{
    let mut text = first_line(alloc, clear / SIZE, sent.len() / SIZE)?;
    for u in 0..site.height.leaves() {
        push_receiver(alloc, &mut text, site, u, clear, sent, steps)?;
    }
    Ok(text)
}

/// The line of a clear stream and its broadcast of this number of packets.
#[tactic(auto, unfolding(crate::specs::Trial::trial_clear_line))]
fn first_line(alloc: Global, clear: usize, sent: usize) -> Result<String, AllocError>
    ensures { IfOk result (λ text. string_bytes text ≡ trial_clear_line clear sent) }
{
    format!(in alloc; "clear {clear} broadcast {sent}\n")
}

/// Appends the line of leaf u's receiver, which is run with room for `room` bytes.
fn push_receiver<L: Ledger>(
    alloc: Global,
    text: &mut String,
    site: &Site,
    u: u32,
    room: usize,
    sent: &[u8],
    steps: &mut Steps<L>,
) -> Result<(), Status>
    requires { u < 2 ^ site.now.height }
    ensures { AddsLine (trial_receiver_line (site_fields_of site.now) sent.now u) (string_bytes text.old)
        (string_bytes text.new)
        result }
{
    let Some(leaf) = Leaf::new(site.height, u) else {
        unreachable!();
    };
    let card = Card::make(alloc, site, leaf, steps)?;
    let receiver = Receiver::new(alloc, card)?;
    let (wrote, status) = hear(alloc, receiver, sent, room, steps)?;
    push_line(text, u, wrote / SIZE, status)
}

/// Appends the line of leaf u's receiver: the number of packets that it wrote, and how it ended.
#[tactic(auto, unfolding(crate::specs::Trial::done_line, crate::specs::Trial::trial_revoked_line))]
fn push_line(text: &mut String, u: u32, wrote: usize, status: Status) -> Result<(), Status>
    requires { IsEnding status }
    ensures { AddsLine (told_line u wrote status) (string_bytes text.old) (string_bytes text.new) result }
{
    match status {
        Status::Done => Ok(write!(text, "receiver {u} wrote {wrote} done\n")?),
        Status::Revoked { period, .. } => {
            Ok(write!(text, "receiver {u} wrote {wrote} revoked {period}\n")?)
        }
        _ => Err(status),
    }
}
