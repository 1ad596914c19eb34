ghost use Rattle.std.specs.Prelude.{◌≡◌, ◌++◌, IfOk, OnOk, codes};
ghost use Rattle.json.specs.Tree.{json_tokens};
ghost use Rattle.serde_json.specs.Written.{outline};
ghost use Rattle.sd_run_broadcasts.specs.Air.{air_data, air_line as line_of_report, broken_text};
ghost use Rattle.sd_run_broadcasts.specs.MemberTokens.{text_tokens};

use crate::air_report::AirReport;
use crate::member::{write_number, write_status};
use json::Writer;
use sd_command_base::{Status, StreamRefusal};
use sd_message::ClearFault;
use std::alloc::{AllocError, Global};

/// The line of a report on a live stream: compact JSON with the keys in ascending order, and a line feed [this project,
/// docs/FORMATS.md, On air].
#[tactic(auto, using(crate::proofs::Members::printed), unfolding(crate::specs::Air::air_line))]
pub fn air_line(alloc: Global, report: &AirReport) -> Result<Vec<u8>, AllocError>
    ensures { IfOk result (λ line. line.items ≡ line_of_report report.now) }
{
    let mut out = Writer::new(Vec::new(alloc));
    write_report(alloc, &mut out, report)?;
    let mut line = out.into_inner();
    line.push(b'\n').map_err(|_| AllocError)?;
    Ok(line)
}

/// Writes a report.
fn write_report(alloc: Global, out: &mut Writer, report: &AirReport) -> Result<(), AllocError>
    ensures tokens { OnOk result (out.new.tokens
        ≡ out.old.tokens ++ json_tokens (outline (air_data report.now))) }
    ensures before { out.new.before ≡ out.old.before }
{
    out.begin_object()?;
    write_first(alloc, out, report.left_out.first)?;
    write_number(out, "left", u64::from(report.left))?;
    write_number(out, "marked", report.left_out.marked)?;
    write_number(out, "packets", report.packets)?;
    write_number(out, "pats", report.left_out.pats)?;
    write_number(out, "period", u64::from(report.period))?;
    write_number(out, "refused", report.left_out.refused)?;
    write_number(out, "sent", report.sent)?;
    write_number(out, "skipped", report.skipped)?;
    write_number(out, "word", u64::from(report.word))?;
    out.end_object()
}

/// Writes why the first of the packets that break a rule does, if one does.
fn write_first(alloc: Global, out: &mut Writer, first: Option<ClearFault>) -> Result<(), AllocError>
    ensures tokens { OnOk result (out.new.tokens
        ≡ out.old.tokens ++ text_tokens (codes "first") (broken_text first)) }
    ensures before { out.new.before ≡ out.old.before }
{
    match first {
        Some(fault) => {
            let status = Status::BadClear(StreamRefusal::Packet(fault));
            write_status(alloc, out, "first", status)
        }
        None => Ok(()),
    }
}
