use crate::ends::{sink, source};
use sd_ports::{
    Depot, FileFault, New, PortFault, ReadAllFault, ReadMostFault, SliceSource, Source, read_all,
    read_file, read_most, write_all, write_file, write_new,
};
use sd_ports_memory::MemDepot;
use std::alloc::{AllocError, Global};

/// What is read and written.
const TEXT: &[u8] = b"abcdefg";

/// The bytes of one call, the call that fails, and how many bytes there is room for.
type Case = (usize, u32, usize);

// Whether a source of TEXT, of which one read fails, is read so, and counts a fault where it failed.
fn reads(
    alloc: Global,
    (part, failing, most): Case,
    want: Result<&[u8], ReadAllFault>,
) -> Result<bool, AllocError> {
    let mut source = source(alloc, TEXT, part, failing)?;
    let same = match read_all(alloc, &mut source, most) {
        Ok(bytes) => want == Ok(bytes.as_slice()),
        Err(fault) => want == Err(fault),
    };
    let faults = u64::from(want == Err(ReadAllFault::Failed));
    Ok(same && source.faults() == faults)
}

// Whether such a prefix of a source of TEXT, of which one read fails, is taken.
fn begins(
    alloc: Global,
    (part, failing, most): Case,
    want: Result<(&str, bool), ReadMostFault>,
) -> Result<bool, AllocError> {
    let mut source = source(alloc, TEXT, part, failing)?;
    let taken = match read_most(alloc, &mut source, most) {
        Ok(taken) => taken,
        Err(fault) => return Ok(want == Err(fault)),
    };
    let Ok((text, more)) = want else {
        return Ok(false);
    };
    let text = text.as_bytes();
    let is_shown = (taken.bytes(), taken.more()) == (text, more);
    let bytes = taken.into_bytes();
    Ok(is_shown && bytes.as_slice() == text)
}

// Whether a sink, of which one write fails, takes this much of TEXT, and counts a fault where that isn't all.
fn takes(alloc: Global, (part, failing, room): Case, held: &str) -> Result<bool, AllocError> {
    let held = held.as_bytes();
    let mut sink = sink(alloc, room, part, failing)?;
    let all = write_all(&mut sink, TEXT).is_ok();
    let is_counted = sink.faults() == u64::from(!all);
    let is_shown = sink.bytes() == held;
    let bytes = sink.into_bytes();
    Ok(is_counted && is_shown && all == (held == TEXT) && bytes.as_slice() == held)
}

static SHELVED: [(&str, &str); 3] = [("a", "old"), ("b", "other"), ("a", "new")];

fn shelf(alloc: Global) -> Result<MemDepot, AllocError> {
    let Ok(mut depot) = MemDepot::new(alloc, 8, 2) else {
        return Err(AllocError);
    };
    for (name, text) in &SHELVED {
        let bytes = Vec::from_slice(alloc, text.as_bytes())?;
        if depot.put(name, bytes).is_err() {
            return Err(AllocError);
        }
    }
    Ok(depot)
}

static READ: [(Case, Result<&[u8], ReadAllFault>); 7] = [
    ((1, 9, 7), Ok(TEXT)),
    ((2, 9, 7), Ok(TEXT)),
    ((3, 9, 8), Ok(TEXT)),
    ((1000, 9, 7), Ok(TEXT)),
    ((1, 9, 6), Err(ReadAllFault::TooBig)),
    ((1000, 9, 6), Err(ReadAllFault::TooBig)),
    ((3, 1, 7), Err(ReadAllFault::Failed)),
];

static TAKEN: [(Case, &str); 6] = [
    ((1, 9, 7), "abcdefg"),
    ((2, 9, 7), "abcdefg"),
    ((3, 9, 8), "abcdefg"),
    ((3, 9, 5), ""),
    ((3, 9, 0), ""),
    ((3, 1, 7), "abc"),
];

// Whether a source that lends TEXT is read.
fn is_lent(alloc: Global) -> bool {
    match read_all(alloc, &mut SliceSource::new(TEXT), 7) {
        Ok(bytes) => bytes.as_slice() == TEXT,
        Err(_) => false,
    }
}

#[test]
fn bytes_go_through_in_portions(rt: HostRuntime) -> Result<(), AllocError> {
    let alloc = rt.alloc();
    for (case, want) in &READ {
        assert!(rt; reads(alloc, *case, *want)?);
    }
    for (case, held) in &TAKEN {
        assert!(rt; takes(alloc, *case, held)?);
    }
    assert!(rt; is_lent(alloc));
    Ok(())
}

static BEGUN: [(Case, Result<(&str, bool), ReadMostFault>); 8] = [
    ((1, 9, 7), Ok(("abcdefg", false))),
    ((3, 9, 8), Ok(("abcdefg", false))),
    ((1, 9, 6), Ok(("abcdef", true))),
    ((1000, 9, 6), Ok(("abcdef", true))),
    ((2, 9, 3), Ok(("abc", true))),
    ((3, 9, 0), Ok(("", true))),
    ((3, 1, 7), Err(ReadMostFault::Failed)),
    ((3, 1, 2), Ok(("ab", true))),
];

#[test]
fn a_prefix_of_an_input_is_taken(rt: HostRuntime) -> Result<(), AllocError> {
    for (case, want) in &BEGUN {
        assert!(rt; begins(rt.alloc(), *case, *want)?);
    }
    Ok(())
}

// Whether a new file of this name is answered so, and the file holds this then.
fn is_made(
    alloc: Global,
    depot: &mut MemDepot,
    name: &str,
    want: Result<New, FileFault>,
    left: &str,
) -> bool {
    write_new(alloc, depot, name, TEXT) == want && depot.get(name) == Some(left.as_bytes())
}

#[test]
fn a_new_file_is_made_once(rt: HostRuntime) -> Result<(), AllocError> {
    let alloc = rt.alloc();
    let mut depot = shelf(alloc)?;
    for (name, want, left) in [
        ("c", New::Made, "abcdefg"),
        ("c", New::There, "abcdefg"),
        ("a", New::There, "new"),
    ] {
        assert!(rt; is_made(alloc, &mut depot, name, Ok(want), left));
    }
    assert!(rt; depot.made() == 1 && depot.faults() == 0);
    Ok(())
}

const FAILED: FileFault = FileFault::Failed;

// The call that fails, and the file of which this read or write fails; whether "a" is read as it is, what a write of
// it answers, what it holds then, and how many faults there were.
type Choice = (
    u32,
    (&'static str, u32),
    Result<bool, FileFault>,
    Result<(), FileFault>,
    &'static str,
    u64,
);

// Opening, making and closing "a" are the calls 0, 1 and 2. Two bytes go through a call of a port.
static CHOICES: [Choice; 8] = [
    (9, ("b", 0), Ok(true), Ok(()), "abcdefg", 0),
    (0, ("b", 0), Err(FAILED), Ok(()), "abcdefg", 1),
    (1, ("b", 0), Ok(true), Err(FAILED), "new", 1),
    (2, ("b", 0), Ok(true), Err(FAILED), "abc", 1),
    (9, ("a", 0), Err(FAILED), Err(FAILED), "", 2),
    (9, ("a", 1), Err(FAILED), Err(FAILED), "ab", 2),
    (9, ("a", 3), Ok(true), Err(FAILED), "abcdef", 1),
    (2, ("a", 1), Err(FAILED), Err(FAILED), "a", 3),
];

// A shelf on which this call fails, and this read or write of this file.
fn failing_shelf(
    alloc: Global,
    call: u32,
    (name, port): (&str, u32),
) -> Result<MemDepot, AllocError> {
    let mut depot = shelf(alloc)?;
    depot.fail_call(call);
    depot.fail_port(String::from_str(alloc, name)?, port);
    Ok(depot)
}

// Whether a write of this file answers so, and leaves this in it.
fn is_written(
    alloc: Global,
    depot: &mut MemDepot,
    name: &str,
    text: &[u8],
    want: Result<(), FileFault>,
    left: &str,
) -> bool {
    write_file(alloc, depot, name, text) == want && depot.get(name) == Some(left.as_bytes())
}

// Whether a read and a write of "a" are answered and counted as the choice says.
fn is_chosen(alloc: Global, choice: &Choice) -> Result<bool, AllocError> {
    let (call, port, read, wrote, left, faults) = *choice;
    let mut depot = failing_shelf(alloc, call, port)?;
    let bytes = read_file(alloc, &mut depot, "a", 9);
    let is_read = bytes.map(|bytes| bytes.as_slice() == b"new".as_slice()) == read;
    let is_left = is_written(alloc, &mut depot, "a", TEXT, wrote, left);
    Ok(is_read && is_left && depot.faults() == faults)
}

#[test]
fn chosen_calls_fail(rt: HostRuntime) -> Result<(), AllocError> {
    for choice in &CHOICES {
        assert!(rt; is_chosen(rt.alloc(), choice)?);
    }
    Ok(())
}

// Lets 17 calls of a depot fail, and as many reads of "a".
fn choose(alloc: Global, depot: &mut MemDepot) -> Result<(), AllocError> {
    for number in 0..17 {
        depot.fail_call(number);
        depot.fail_port(String::from_str(alloc, "a")?, number);
    }
    Ok(())
}

// Whether "a" is opened and one byte of it is read, but no second one.
fn reads_once(alloc: Global, depot: &mut MemDepot) -> bool {
    let Ok(mut port) = depot.open_in(alloc, "a") else {
        return false;
    };
    port.read(&mut [0]) == Ok(1) && port.read(&mut [0]) == Err(PortFault)
}

#[test]
fn the_newest_choices_are_kept(rt: HostRuntime) -> Result<(), AllocError> {
    let mut depot = shelf(rt.alloc())?;
    choose(rt.alloc(), &mut depot)?;
    // Call 0 and the first read work again.
    assert!(rt; reads_once(rt.alloc(), &mut depot));
    assert!(rt; depot.open_in(rt.alloc(), "a").is_err() && depot.faults() == 1);
    Ok(())
}

// Files, how many bytes of them are read at most, and what that answers.
static KEPT: [(&str, usize, Result<&str, FileFault>); 4] = [
    ("a", 3, Ok("new")),
    ("b", 5, Ok("other")),
    ("b", 4, Err(FileFault::TooBig)),
    ("c", 9, Err(FileFault::Missing)),
];

// Whether a read of this file answers so.
fn is_kept(
    alloc: Global,
    depot: &mut MemDepot,
    name: &str,
    most: usize,
    want: Result<&str, FileFault>,
) -> bool {
    match read_file(alloc, depot, name, most) {
        Ok(bytes) => want.is_ok_and(|text| bytes.as_slice() == text.as_bytes()),
        Err(fault) => want == Err(fault),
    }
}

// Whether the depot counts a read that fails when its port is closed.
fn counts_fault(alloc: Global, depot: &mut MemDepot) -> bool {
    let Ok(mut failing) = source(alloc, &[], 1, 0) else {
        return false;
    };
    let read = failing.read(&mut [0]);
    depot.close_in(failing);
    read == Err(PortFault) && depot.faults() == 1
}

#[test]
fn depots_keep_files_apart(rt: HostRuntime) -> Result<(), AllocError> {
    let alloc = rt.alloc();
    let mut depot = shelf(alloc)?;
    for (name, most, want) in &KEPT {
        assert!(rt;
            is_kept(alloc, &mut depot, name, *most, *want),
            "{name} {most}"
        );
    }
    let are_apart = depot.get("b") == Some(b"other") && depot.get("c").is_none();
    assert!(rt; are_apart && counts_fault(alloc, &mut depot) && depot.misses() == 1);
    Ok(())
}

// Files, what is written to them, what that answers, and what they hold then.
static WRITTEN: [(&str, &str, Result<(), FileFault>, &str); 3] = [
    ("a", "abcdefg", Ok(()), "abcdefg"),
    ("c", "", Ok(()), ""),
    ("b", "abcdefghij", Err(FAILED), ""),
];

#[test]
fn files_are_made_and_replaced(rt: HostRuntime) -> Result<(), AllocError> {
    let alloc = rt.alloc();
    let mut depot = shelf(alloc)?;
    for (name, text, want, left) in &WRITTEN {
        let is_due = is_written(alloc, &mut depot, name, text.as_bytes(), *want, left);
        assert!(rt; is_due, "{name}");
    }
    let counts = (depot.made(), depot.faults(), depot.misses());
    assert!(rt; depot.get("a") == Some(TEXT) && counts == (3, 1, 0));
    Ok(())
}
