ghost use Rattle.std.specs.Prelude.{◌≡◌, ◌++◌, IfOk, OnOk, OnErr, string_bytes};
ghost use Rattle.serde_json.specs.View.{view};
ghost use Rattle.sd_run_streams.specs.TableLines.{fault_data};
ghost use Rattle.sd_run_streams.specs.Judged.{data_as, line_as};

use crate::cat::cat_value;
use crate::pat::pat_value;
use crate::pmt::pmt_value;
use crate::table::{Table, TableFault};
use sd_base::NoMemory;
use sd_command_base::as_line;
use serde_json::{Value, json};
use std::alloc::{AllocError, Global};

/// Puts the line of a section after the text: of what it is on this PID, completed by the packet of this number.
///
/// The line is compact JSON with the keys in ascending order, and a line feed. Of a PAT, a CAT and a PMT it names
/// what they list, and of anything else which fault it has.
pub fn push_line(
    alloc: Global,
    text: &mut String,
    packet: u64,
    pid: u16,
    table: &Result<Table, TableFault>,
) -> Result<(), NoMemory>
    ensures value { OnOk result (string_bytes text.new ≡ string_bytes text.old ++ line_as packet pid table.now) }
    ensures unchanged { OnErr result (string_bytes text.new ≡ string_bytes text.old) }
{
    let Ok(line) = line(alloc, packet, pid, table) else {
        return Err(NoMemory);
    };
    Ok(text.push_str(line.as_str())?)
}

// The line of a section.
#[tactic(auto, using(crate::proofs::TablesPlain::plain_as), unfolding(crate::specs::Judged::line_as))]
fn line(
    alloc: Global,
    packet: u64,
    pid: u16,
    table: &Result<Table, TableFault>,
) -> Result<String, AllocError>
    ensures { IfOk result (λ text. string_bytes text ≡ line_as packet pid table.now) }
{
    let value = table_value(alloc, packet, pid, table)?;
    as_line(value.to_string(alloc)?)
}

// What is shown of it.
fn table_value(
    alloc: Global,
    packet: u64,
    pid: u16,
    table: &Result<Table, TableFault>,
) -> Result<Value, AllocError>
    ensures { IfOk result (λ value. view value ≡ data_as packet pid table.now) }
{
    match table {
        Ok(Table::Pat(pat)) => pat_value(alloc, packet, pid, pat),
        Ok(Table::Cat(cat)) => cat_value(alloc, packet, pid, cat),
        Ok(Table::Pmt(pmt)) => pmt_value(alloc, packet, pid, pmt),
        Err(TableFault::Length) => fault_value(alloc, "length", packet, pid),
        Err(TableFault::Crc) => fault_value(alloc, "crc", packet, pid),
        Err(TableFault::Form) => fault_value(alloc, "table", packet, pid),
    }
}

// What is shown of a fault.
#[tactic(auto, unfolding(crate::specs::TableLines::fault_data))]
fn fault_value(alloc: Global, fault: &str, packet: u64, pid: u16) -> Result<Value, AllocError>
    ensures { IfOk result (λ value. view value ≡ fault_data fault.now packet pid) }
{
    json!(in alloc; {"fault": fault, "packet": packet, "pid": pid})
}
