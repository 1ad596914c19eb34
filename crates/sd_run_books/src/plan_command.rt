//! `plan SITE BOOK PACKETS PIDS`: what a broadcast takes on air, before it is sent.

ghost use Rattle.std.specs.Prelude.{◌≡◌, ◌≢◌, ◌≤◌, ℕ, IfOk, IfErr, string_bytes};
ghost use Rattle.sd_site_cards.specs.SiteFields.{site_fields_of};
ghost use Rattle.sd_command_base.specs.Outside.{depot_state, io_state_at};
ghost use Rattle.sd_command_base.specs.Reads.{SureOutcome, FileOutcome};
ghost use Rattle.sd_command_base.specs.Outcome.{Implements, status_of};
ghost use Rattle.sd_command_base.specs.Shown.{shown_number, shown_word};
ghost use Rattle.sd_run_books.specs.Air.{air_text as air_of, plan_command_meaning, roomy_site_of_file, told_room};

use crate::plan_lines::{push_ends, push_totals};
use crate::plan_periods::periods_text;
use crate::plan_schedule::{cryptos_for, last_word, messages_for, period_count};
use sd_book::Book;
use sd_command_base::{Number, Status, Word, print_text, read_book, read_site};
use sd_message::part_count;
use sd_ports::{Depot, Sink};
use sd_site_cards::Site;
use std::alloc::Global;

/// Does `plan SITE BOOK PACKETS PIDS`. The lines are made before the first is printed.
#[inline(never)]
pub fn plan<D: Depot, P: Sink>(
    alloc: Global,
    depot: &mut D,
    print: &mut P,
    site: Word<'_>,
    book: Word<'_>,
    packets: Number,
    pids: u32,
) -> Result<(), Status>
    requires words { site.number ≢ book.number }
    requires packets { 1 ≤ packets.value }
    requires pids { pids ≤ 256 }
    ensures { (steps : ℕ) → Implements
        (plan_command_meaning (shown_word site.entry) (shown_word book.entry) (shown_number packets) pids)
        (io_state_at D.Depot P.Sink depot.old print.old steps)
        (io_state_at D.Depot P.Sink depot.new print.new steps) (status_of result) }
{
    let site = read_roomy_site(alloc, depot, site, packets)?;
    let book = read_book(alloc, depot, book, site.height)?;
    let text = air_text(alloc, &site, &book, packets.value, pids)?;
    print_text(print, text.as_bytes())
}

/// The site in the file that the argument names, if its range of control words is long enough for the packets.
fn read_roomy_site<D: Depot>(
    alloc: Global,
    depot: &mut D,
    word: Word<'_>,
    packets: Number,
) -> Result<Site, Status>
    requires { 1 ≤ packets.value }
    ensures { FileOutcome site_fields_of (roomy_site_of_file word.entry.number (shown_number packets))
        word.entry.text.now
        (depot_state D.Depot depot.old) (depot_state D.Depot depot.new) result }
{
    let site = read_site(alloc, depot, word)?;
    judge_room(site, packets)
}

/// The site, if its range of control words is long enough for this number of packets.
fn judge_room(site: Site, packets: Number) -> Result<Site, Status>
    requires { 1 ≤ packets.value }
    ensures { SureOutcome site_fields_of (told_room (shown_number packets) (site_fields_of site)) result }
{
    let cryptos = cryptos_for(&site, packets.value);
    if last_word(&site, cryptos) > u64::from(site.last_word) {
        return Err(Status::BadWord(packets.word));
    }
    Ok(site)
}

/// All lines for this number of packets, of which at most `pids` PIDs have positions.
#[tactic(auto, unfolding(crate::specs::Air::air_text, crate::specs::Air::added_most))]
fn air_text(
    alloc: Global,
    site: &Site,
    book: &Book,
    packets: u32,
    pids: u32,
) -> Result<String, Status>
    requires height { book.now.height ≡ site.now.height }
    requires packets { 1 ≤ packets }
    requires pids { pids ≤ 256 }
    ensures value { IfOk result (λ text. string_bytes text
        ≡ air_of (record { site = site_fields_of site.now; commands = book.now.commands }) packets pids) }
    ensures fault { IfErr result (λ status. status ≡ Status.NoMemory) }
{
    let cryptos = cryptos_for(site, packets);
    let (mut text, tables) = periods_text(alloc, site, book, cryptos)?;
    let messages = messages_for(site, packets);
    let parts = part_count(site.messages, pids as usize);
    push_totals(
        &mut text,
        messages,
        parts,
        packets,
        tables + messages * u64::from(parts),
    )?;
    let count = period_count(site, book.last_period(), cryptos);
    let last_period = u64::from(site.first_period) + u64::from(count) - 1;
    push_ends(
        &mut text,
        u64::from(site.first_period),
        u64::from(site.first_word),
        last_period,
        last_word(site, cryptos),
    )?;
    Ok(text)
}
