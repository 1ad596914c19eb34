ghost use Rattle.std.specs.Prelude.{◌≡◌, ◌++◌, IfOk, OnOk, codes};
ghost use Rattle.json.specs.Tree.{json_tokens};
ghost use Rattle.serde_json.specs.Written.{outline};
ghost use Rattle.sd_run_broadcasts.specs.MemberTokens.{text_tokens};
ghost use Rattle.sd_run_broadcasts.specs.Watch.{first_text, watch_report_data, watch_report_line as line_of_report};
ghost use Rattle.sd_run_broadcasts.specs.WatchTokens.{run_tokens};

use crate::ending::ending_status;
use crate::member::{write_number, write_status};
use json::Writer;
use sd_command_base::{Status, StreamRefusal};
use sd_message::StreamFault;
use sd_spec::Report;
use std::alloc::{AllocError, Global};

/// The line of a report for the receiver of this leaf, before which `skipped` bytes were in no packet: compact JSON
/// with the keys in ascending order, and a line feed [this project, docs/FORMATS.md, Receiver].
#[tactic(auto, using(crate::proofs::Members::printed), unfolding(crate::specs::Watch::watch_report_line))]
pub fn report_line(
    alloc: Global,
    leaf: u32,
    skipped: u64,
    report: &Report,
) -> Result<Vec<u8>, AllocError>
    ensures { IfOk result (λ line. line.items ≡ line_of_report leaf skipped report.now) }
{
    let mut out = Writer::new(Vec::new(alloc));
    write_report(alloc, &mut out, leaf, skipped, report)?;
    let mut line = out.into_inner();
    line.push(b'\n').map_err(|_| AllocError)?;
    Ok(line)
}

/// Writes a report.
fn write_report(
    alloc: Global,
    out: &mut Writer,
    leaf: u32,
    skipped: u64,
    report: &Report,
) -> Result<(), AllocError>
    ensures tokens { OnOk result (out.new.tokens
        ≡ out.old.tokens ++ json_tokens (outline (watch_report_data leaf skipped report.now))) }
    ensures before { out.new.before ≡ out.old.before }
{
    out.begin_object()?;
    write_number(out, "doubled", report.tally.doubled)?;
    write_status(alloc, out, "ending", ending_status(leaf, report.ending))?;
    write_first(alloc, out, report.tally.first)?;
    write_number(out, "marked", report.tally.marked)?;
    write_number(out, "odd", report.tally.odd)?;
    write_number(out, "packets", report.packets)?;
    write_number(out, "refused", report.tally.refused)?;
    write_run(out, report.run)?;
    write_number(out, "skipped", skipped)?;
    write_number(out, "written", report.written)?;
    out.end_object()
}

/// Writes the name of a run, if it has one.
fn write_run(out: &mut Writer, run: Option<Option<u32>>) -> Result<(), AllocError>
    ensures tokens { OnOk result (out.new.tokens ≡ out.old.tokens ++ run_tokens run) }
    ensures before { out.new.before ≡ out.old.before }
{
    match run {
        Some(Some(number)) => write_number(out, "run", u64::from(number)),
        _ => Ok(()),
    }
}

/// Writes why the first of the refused packets is refused, if one is.
fn write_first(
    alloc: Global,
    out: &mut Writer,
    first: Option<StreamFault>,
) -> Result<(), AllocError>
    ensures tokens { OnOk result (out.new.tokens ≡ out.old.tokens ++ text_tokens (codes "first") (first_text first)) }
    ensures before { out.new.before ≡ out.old.before }
{
    match first {
        Some(fault) => {
            let status = Status::BadStream(StreamRefusal::Packet(fault));
            write_status(alloc, out, "first", status)
        }
        None => Ok(()),
    }
}
