ghost use Rattle.std.specs.Prelude.{◌≡◌, ◌⊎◌, ◌+◌, ◌≤◌, ◌++◌, true, replicate, length, All, IfErr, IfOk, OnOk, Ok, Err};
ghost use Rattle.std.specs.Prelude.{MatchResult};
ghost use Rattle.sd_spec.specs.Events.{is_of};
ghost use Rattle.sd_field.specs.Script.{judged_event, script_of, script_line_event};

use crate::fault::ScriptFault;
use crate::line::{LineFault, run_on};
use sd_base::next_line;
use sd_spec::Event;
use sd_tree_keys::Height;
use std::alloc::Global;

/// The most events of a script [this project, docs/FORMATS.md, Field].
pub const MOST_EVENTS: usize = 524_288;

/// The events of a script for a tree of this height. Each line says one event, or a number of equal ones.
///
/// Lines are judged in order, and the first bad one decides. Of one line the faults are looked for in the order `Line`,
/// `Leaf`, `Events` [this project, docs/FORMATS.md, Field].
pub fn read_script(alloc: Global, bytes: &[u8], h: Height) -> Result<Vec<Event>, ScriptFault>
    ensures exact { MatchResult result (λ events. script_of h bytes.now ≡ Ok events.items)
        (λ fault. (fault ≡ ScriptFault.NoMemory) ⊎ (script_of h bytes.now ≡ Err fault)) }
    ensures within { IfOk result (λ events. (length events.items ≤ 524288)
        × All (λ event. is_of h event ≡ true) events.items) }
{
    let mut events = Vec::new(alloc);
    let mut rest = bytes;
    let mut lines: u32 = 0;
    while let Some((line, after)) = next_line(rest) {
        lines += 1;
        let (event, times) = judge(line, h, lines, events.len())?;
        push_run(&mut events, &event, times)?;
        rest = after;
    }
    Ok(events)
}

/// The event that line k says, and how often, after `count` events.
fn judge(line: &[u8], h: Height, k: u32, count: usize) -> Result<(Event, u32), ScriptFault>
    requires few { count ≤ 524288 }
    ensures value { result ≡ judged_event h k count (script_line_event line.now) }
    ensures some { IfOk result (λ run. 1 ≤ run.1) }
    ensures few { IfOk result (λ run. count + run.1 ≤ 524288) }
{
    let (event, times) = match run_on(line, h) {
        Ok(run) => run,
        Err(LineFault::Form) => return Err(ScriptFault::Line(k)),
        Err(LineFault::Leaf) => return Err(ScriptFault::Leaf(k)),
    };
    if count + times as usize > MOST_EVENTS {
        return Err(ScriptFault::Events);
    }
    Ok((event, times))
}

/// Puts a number of equal events at the end.
fn push_run(events: &mut Vec<Event>, event: &Event, times: u32) -> Result<(), ScriptFault>
    ensures value { OnOk result (events.new.items ≡ events.old.items ++ replicate times event.now) }
    ensures fault { IfErr result (λ fault. fault ≡ ScriptFault.NoMemory) }
{
    for _turn in 0..times {
        events.push(*event)?;
    }
    Ok(())
}
