ghost use Rattle.std.specs.Prelude.{◌≡◌, ◌≢◌, [], IfOk, string_bytes};
ghost use Rattle.sd_spec.specs.Plan.{Plan};
ghost use Rattle.sd_head.specs.Live.{IsLiveAfter, IsOnAir};
ghost use Rattle.sd_command_base.specs.Made.{used_name as name_of_mark};
ghost use Rattle.sd_command_base.specs.Outside.{page_state, io_state_at};
ghost use Rattle.sd_command_base.specs.Outcome.{Implements, status_of};
ghost use Rattle.sd_command_base.specs.Shown.{shown_word};
ghost use Rattle.sd_run_broadcasts.specs.Air.{air_meaning, aired_meaning};
ghost use Rattle.sd_run_broadcasts.specs.OnAir.{sending_result, TellsReport};
ghost use Rattle.sd_run_broadcasts.specs.Said.{AirSays, IsSaid, NotesOn};

use crate::air_line::air_line;
use crate::air_plan::read_air_plan;
use crate::air_send::{Finished, send_live};
use crate::open_marked::open_marked;
use sd_base::Steps;
use sd_command_base::{Status, Word, close_both, print_text};
use sd_head::Live;
use sd_ports::{Depot, Sink};
use std::alloc::{AllocError, Global};
use std::fmt::Write;
use std::sync::ledger::Ledger;

/// Does `air SITE BOOK CLEAR OUT`: a live stream that may be damaged is sent with a site that was not used before, and
/// a report is printed at the end. While it runs, a report is written to `notes` as each period begins [this project,
/// docs/FORMATS.md, On air].
#[inline(never)]
pub fn air<D: Depot, P: Sink, N: Sink, L: Ledger>(
    alloc: Global,
    depot: &mut D,
    print: &mut P,
    notes: &mut N,
    site: Word<'_>,
    book: Word<'_>,
    clear: Word<'_>,
    out: Word<'_>,
    steps: &mut Steps<L>,
) -> Result<(), Status>
    requires { (site.number ≢ book.number) × (site.number ≢ clear.number) × (book.number ≢ clear.number) }
    ensures value { Implements (air_meaning (shown_word site.entry) (shown_word book.entry) (shown_word clear.entry)
        (shown_word out.entry))
        (io_state_at D.Depot P.Sink depot.old print.old steps.old)
        (io_state_at D.Depot P.Sink depot.new print.new steps.new) (status_of result) }
    ensures notes { IsSaid (AirSays (shown_word site.entry) (shown_word book.entry)) (D.Depot.files depot.old)
        (N.held notes.old) (N.held notes.new) }
{
    let mark = used_name(alloc, site.text)?;
    let (fields, commands) = read_air_plan(alloc, depot, site, book)?;
    let live = Live::new(alloc, fields, commands)?;
    air_stream(
        alloc,
        depot,
        print,
        notes,
        live,
        site,
        mark.as_str(),
        clear,
        out,
        steps,
    )
}

/// The name of the mark of the site of this name.
fn used_name(alloc: Global, site: &str) -> Result<String, AllocError>
    ensures { IfOk result (λ name. string_bytes name ≡ name_of_mark site.now) }
{
    format!(in alloc; "{site}.used")
}

/// Sends the file of a live stream into OUT, once the mark is made. The report is printed once OUT is closed.
fn air_stream<D: Depot, P: Sink, N: Sink, L: Ledger>(
    alloc: Global,
    depot: &mut D,
    print: &mut P,
    notes: &mut N,
    mut live: Live,
    site: Word<'_>,
    mark: &str,
    clear: Word<'_>,
    out: Word<'_>,
    steps: &mut Steps<L>,
) -> Result<(), Status>
    requires on { IsOnAir live }
    requires mark { mark.now ≡ name_of_mark site.text.now }
    requires apart { site.number ≢ clear.number }
    ensures value { (plan : Plan) → IsLiveAfter plan [] live →
        Implements (aired_meaning plan (shown_word site.entry) (shown_word clear.entry) (shown_word out.entry))
        (io_state_at D.Depot P.Sink depot.old print.old steps.old)
        (io_state_at D.Depot P.Sink depot.new print.new steps.new) (status_of result) }
    ensures notes { (plan : Plan) → IsLiveAfter plan [] live → NotesOn plan (N.held notes.old) (N.held notes.new) }
{
    let mark = Word::at(site.number, mark);
    let (mut inlet, mut outlet) = open_marked(alloc, depot, clear, mark, out)?;
    let sent = send_live(alloc, &mut inlet, &mut outlet, notes, &mut live, steps);
    close_both(depot, inlet, outlet, out, ended(&sent))?;
    let finished = sent?;
    tell(alloc, print, finished)
}

/// Prints the report of a live stream that was sent to its end, and returns how the command ends.
fn tell<P: Sink>(alloc: Global, print: &mut P, finished: Finished) -> Result<(), Status>
    ensures { TellsReport finished (page_state P.Sink print.old) (page_state P.Sink print.new) (status_of result) }
{
    let line = air_line(alloc, &finished.report)?;
    print_text(print, &line)?;
    finished.result()
}

/// How the sending ended, before its report is printed.
fn ended(sent: &Result<Finished, Status>) -> Result<(), Status>
    ensures { result ≡ sending_result sent.now }
{
    match sent {
        Ok(_) => Ok(()),
        Err(status) => Err(*status),
    }
}
