ghost use Rattle.std.specs.Prelude.{◌≡◌, ◌<◌, ◌≤◌, None};

use crate::files::{Files, ROOM};
use sd_base::Steps;
use sd_command_base::Status;
use sd_command_line::CommandLine;
use sd_ports::{Depot, MemSink, PortFault, Sink};
use sd_ports_memory::MemDepot;
use sd_run::run;
use std::alloc::{AllocError, Global};
use std::marker::Brand;
use std::sync::ledger::{Blank, Ledger};

/// The call of the outside that fails in a run.
#[derive(Clone, Copy, Debug)]
pub(crate) enum Fault<'a> {
    /// No call fails.
    Nowhere,
    /// The depot's call of this number.
    Call(u32),
    /// The call of this number on each port of this name.
    Port(&'a str, u32),
    /// The print of this number.
    Print(u32),
}

/// What a run leaves.
#[derive(Drop)]
pub(crate) struct Leaving {
    /// The run's status.
    pub(crate) status: Status,
    /// The bytes that were printed.
    pub(crate) printed: Vec<u8>,
    /// The file O, or the site that was to be made.
    pub(crate) out: Option<Vec<u8>>,
    /// Whether some call of the depot failed.
    pub(crate) failed: bool,
    /// How many files were made.
    pub(crate) made: u64,
    /// Whether the files that were there are as they were, and none that is asked for was missing.
    pub(crate) stayed: bool,
}

impl Leaving {
    /// Whether a file O was made that begins this one.
    pub(crate) fn is_prefix_of(&self, whole: &[u8]) -> bool {
        match &self.out {
            Some(out) => whole.starts_with(out),
            None => false,
        }
    }
}

/// What a run with these arguments leaves in these files, if a call of a port moves at most `most` bytes.
pub(crate) fn left(
    alloc: Global,
    files: &Files,
    words: &[&str],
    most: usize,
    fault: Fault<'_>,
) -> Result<Leaving, AllocError>
    requires { 1 ≤ most }
{
    let mut depot = files.shelf(alloc, most)?;
    let fails = begin_failing(alloc, &mut depot, fault)?;
    let mut print = MemSink::new(alloc, ROOM.max(files.room), most, fails).map_err(|_| AllocError)?;
    let list = list_of(alloc, words)?;
    let status = uncounted(alloc, &list, &mut depot, &mut print);
    Ok(Leaving {
        status,
        printed: print.into_bytes(),
        out: copy_of(alloc, depot.get(out_name(words)))?,
        failed: depot.faults() > 0,
        made: depot.made(),
        stayed: depot.misses() == 0 && files.stand_in(&depot),
    })
}

/// The name of OUT: the last of the words if they make a site, whose name they can't choose, and else O.
pub(crate) fn out_name<'a>(words: &[&'a str]) -> &'a str {
    match words {
        ["next" | "twin", .., out] => out,
        _ => "O",
    }
}

/// Lets the call of the depot or of its ports fail; the numbers of the prints that fail.
fn begin_failing(
    alloc: Global,
    depot: &mut MemDepot,
    fault: Fault<'_>,
) -> Result<Vec<u32>, AllocError> {
    match fault {
        Fault::Nowhere => {}
        Fault::Call(number) => depot.fail_call(number),
        Fault::Port(name, number) => depot.fail_port(String::from_str(alloc, name)?, number),
        Fault::Print(number) => return Vec::from_slice(alloc, &[number]),
    }
    Ok(Vec::new(alloc))
}

pub(crate) fn list_of(alloc: Global, words: &[&str]) -> Result<Vec<String>, AllocError> {
    let mut list = Vec::new(alloc);
    for word in words {
        list.push(String::from_str(alloc, word)?)?;
    }
    Ok(list)
}

fn copy_of(alloc: Global, bytes: Option<&[u8]>) -> Result<Option<Vec<u8>>, AllocError> {
    match bytes {
        Some(bytes) => Ok(Some(Vec::from_slice(alloc, bytes)?)),
        None => Ok(None),
    }
}

/// An output that takes all bytes and keeps none.
#[derive(Drop)]
struct Unread;

impl Sink for Unread {
    ghost held = { λ s. None };

    ghost faults = { λ s. 0 };

    ghost room = { λ s. None };

    ghost waits = { λ s. 0 };

    fn write(&mut self, piece: &[u8]) -> Result<usize, PortFault> {
        Ok(piece.len())
    }

    fn hand_on(&mut self) -> Result<(), PortFault> {
        Ok(())
    }
}

/// Runs the words and counts no step. What is said while a command runs is left unread.
pub(crate) fn uncounted<D: Depot, P: Sink>(
    alloc: Global,
    words: &[String],
    depot: &mut D,
    print: &mut P,
) -> Status {
    noted(alloc, words, depot, print, &mut Unread)
}

/// The same, where what is said meanwhile goes to `notes`.
pub(crate) fn noted<D: Depot, P: Sink, N: Sink>(
    alloc: Global,
    words: &[String],
    depot: &mut D,
    print: &mut P,
    notes: &mut N,
) -> Status {
    counted::<D, P, N, Brand>(alloc, words, depot, print, notes, Blank::new(1))
}

fn counted<D: Depot, P: Sink, N: Sink, L: Ledger>(
    alloc: Global,
    words: &[String],
    depot: &mut D,
    print: &mut P,
    notes: &mut N,
    blank: Blank,
) -> Status
    requires name { blank.name ≡ L.name }
    requires parts { blank.parts ≡ L.parts }
    requires some { 0 < blank.parts }
{
    let mut steps = Steps::<L>::new(blank);
    run(
        alloc,
        &CommandLine::read(words),
        depot,
        print,
        notes,
        &mut steps,
    )
}

/// The file that the words make.
pub(crate) fn made(alloc: Global, files: &Files, words: &[&str]) -> Result<Vec<u8>, AllocError> {
    let left = left(alloc, files, words, ROOM, Fault::Nowhere)?;
    left.out.ok_or(AllocError)
}
