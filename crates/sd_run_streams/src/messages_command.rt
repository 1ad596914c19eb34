//! `messages SITE STREAM`: the messages on a site's PIDs in a stream, a line each.

ghost use Rattle.std.specs.Prelude.{◌≡◌, ◌≢◌, ◌<◌, ℕ};
ghost use Rattle.sd_base.specs.Count.{IsCaused};
ghost use Rattle.sd_site_cards.specs.SiteFields.{site_fields_of};
ghost use Rattle.sd_command_base.specs.Outside.{page_state, io_state_at};
ghost use Rattle.sd_command_base.specs.Outcome.{Implements, status_of};
ghost use Rattle.sd_command_base.specs.Shown.{shown_word};
ghost use Rattle.sd_run_streams.specs.Messages.{MonitorsLeft, messages_meaning, messages_stream_meaning};

use crate::Monitor;
use crate::tables_command::drive_result;
use sd_base::Steps;
use sd_command_base::{Status, Word, opening_fault, read_site};
use sd_engine::drive;
use sd_ports::{Depot, Sink, Source};
use sd_site_cards::Site;
use std::alloc::Global;
use std::marker::Brand;
use std::sync::ledger::{Blank, Ledger};

/// Does `messages SITE STREAM`: the stream is read and the lines of its messages are printed in turn.
#[inline(never)]
pub fn messages<D: Depot, P: Sink>(
    alloc: Global,
    depot: &mut D,
    print: &mut P,
    site: Word<'_>,
    stream: Word<'_>,
) -> Result<(), Status>
    requires { site.number ≢ stream.number }
    ensures { (steps : ℕ) → Implements (messages_meaning (shown_word site.entry) (shown_word stream.entry))
        (io_state_at D.Depot P.Sink depot.old print.old steps)
        (io_state_at D.Depot P.Sink depot.new print.new steps) (status_of result) }
{
    let site = read_site(alloc, depot, site)?;
    print_file(alloc, depot, print, &site, stream)
}

/// Prints the lines of the messages in a stream's file.
fn print_file<D: Depot, P: Sink>(
    alloc: Global,
    depot: &mut D,
    print: &mut P,
    site: &Site,
    stream: Word<'_>,
) -> Result<(), Status>
    ensures { (steps : ℕ) → Implements (messages_stream_meaning (site_fields_of site.now) (shown_word stream.entry))
        (io_state_at D.Depot P.Sink depot.old print.old steps)
        (io_state_at D.Depot P.Sink depot.new print.new steps) (status_of result) }
{
    let mut port = match depot.open_in(alloc, stream.text) {
        Ok(port) => port,
        Err(fault) => return Err(opening_fault(stream.number, fault)),
    };
    let printed = print_messages(alloc, &mut port, print, site);
    depot.close_in(port);
    printed
}

/// Prints the lines of the messages in the stream that is left of a source. It counts no steps.
fn print_messages<S: Source, P: Sink>(
    alloc: Global,
    source: &mut S,
    print: &mut P,
    site: &Site,
) -> Result<(), Status>
    ensures value { MonitorsLeft (site_fields_of site.now) (S.left source.old) (page_state P.Sink print.old)
        (page_state P.Sink print.new) (status_of result) }
    ensures cause { IsCaused (S.faults source.old) (S.faults source.new) (status_of result ≡ Status.DepotFault) }
{
    monitor::<Brand, S, P>(alloc, source, print, site, Blank::new(1))
}

/// Prints them with a counter over a new ledger.
fn monitor<L: Ledger, S: Source, P: Sink>(
    alloc: Global,
    source: &mut S,
    print: &mut P,
    site: &Site,
    blank: Blank,
) -> Result<(), Status>
    requires name { blank.name ≡ L.name }
    requires parts { blank.parts ≡ L.parts }
    requires some { 0 < blank.parts }
    ensures value { MonitorsLeft (site_fields_of site.now) (S.left source.old) (page_state P.Sink print.old)
        (page_state P.Sink print.new) (status_of result) }
    ensures cause { IsCaused (S.faults source.old) (S.faults source.new) (status_of result ≡ Status.DepotFault) }
{
    let mut monitor = Monitor::new(alloc, site);
    let mut steps = Steps::<L>::new(blank);
    drive_result(drive(source, print, &mut monitor, &mut steps))
}
