use crate::sections::{PAT, PMT};
use sd_run_streams::{push_line, table_on};
use std::alloc::Global;

const CAT: [u8; 20] = [
    0x01, 0xB0, 0x11, 0xFF, 0xFF, 0xC1, 0x00, 0x00, 0x09, 0x06, 0x12, 0x34, 0xE1, 0xF0, 0xE1, 0xF1,
    0x92, 0xF9, 0x4E, 0xEB,
];

// A PMT with a CA_descriptor of its program.
const REWRITTEN: [u8; 32] = [
    0x02, 0xB0, 0x1D, 0x00, 0x01, 0xC1, 0x00, 0x00, 0xE1, 0x00, 0xF0, 0x06, 0x09, 0x04, 0x12, 0x34,
    0xE1, 0xF1, 0x1B, 0xE1, 0x00, 0xF0, 0x00, 0x0F, 0xE1, 0x01, 0xF0, 0x00, 0xB0, 0x6C, 0xC7, 0xBD,
];

// A PMT of another version with other PIDs, of ffmpeg.
const LATER: [u8; 26] = [
    0x02, 0xB0, 0x17, 0x00, 0x01, 0xC7, 0x00, 0x00, 0xE2, 0x00, 0xF0, 0x00, 0x1B, 0xE2, 0x00, 0xF0,
    0x00, 0x0F, 0xE2, 0x01, 0xF0, 0x00, 0xE5, 0x01, 0x1C, 0x65,
];

// A PMT with a registration_descriptor of a stream, of GStreamer.
const DESCRIBED: [u8; 36] = [
    0x02, 0xB0, 0x21, 0x00, 0x01, 0xC1, 0x00, 0x00, 0xE0, 0x41, 0xF0, 0x00, 0x1B, 0xE0, 0x41, 0xF0,
    0x0A, 0x05, 0x08, 0x48, 0x44, 0x4D, 0x56, 0xFF, 0x1B, 0x44, 0x3F, 0x03, 0xE0, 0x42, 0xF0, 0x00,
    0x17, 0xCB, 0xE2, 0x62,
];

// A PMT whose program has a descriptor too short for a CA_PID, and whose first stream has a CA_descriptor after
// another.
const PROTECTED: [u8; 41] = [
    0x02, 0xB0, 0x26, 0x00, 0x07, 0xCB, 0x00, 0x00, 0xE1, 0x00, 0xF0, 0x05, 0x09, 0x03, 0x12, 0x34,
    0xE1, 0x1B, 0xE1, 0x00, 0xF0, 0x0A, 0x52, 0x01, 0x01, 0x09, 0x05, 0x00, 0x64, 0xF1, 0x23, 0xAA,
    0x0F, 0xE1, 0x01, 0xF0, 0x00, 0x00, 0xD8, 0x37, 0x3F,
];

// The packet and the PID of a section, the section, and its line.
type Row = (u64, u16, &'static [u8], &'static str);

static SHOWN: [Row; 7] = [
    (
        0,
        0,
        &PAT,
        r#"{"packet":0,"pid":0,"programs":[{"number":1,"pid":4096}],"stream":1,"table":"pat","version":0}"#,
    ),
    (
        0,
        1,
        &CAT,
        r#"{"ca":[{"pid":496,"system":4660}],"packet":0,"pid":1,"table":"cat","version":0}"#,
    ),
    (
        1,
        4096,
        &PMT,
        r#"{"ca":[],"packet":1,"pcr":256,"pid":4096,"program":1,"streams":[{"ca":[],"pid":256,"type":27},{"ca":[],"pid":257,"type":15}],"table":"pmt","version":0}"#,
    ),
    (
        4,
        4096,
        &REWRITTEN,
        r#"{"ca":[{"pid":497,"system":4660}],"packet":4,"pcr":256,"pid":4096,"program":1,"streams":[{"ca":[],"pid":256,"type":27},{"ca":[],"pid":257,"type":15}],"table":"pmt","version":0}"#,
    ),
    (
        269,
        4352,
        &LATER,
        r#"{"ca":[],"packet":269,"pcr":512,"pid":4352,"program":1,"streams":[{"ca":[],"pid":512,"type":27},{"ca":[],"pid":513,"type":15}],"table":"pmt","version":3}"#,
    ),
    (
        1,
        32,
        &DESCRIBED,
        r#"{"ca":[],"packet":1,"pcr":65,"pid":32,"program":1,"streams":[{"ca":[],"pid":65,"type":27},{"ca":[],"pid":66,"type":3}],"table":"pmt","version":0}"#,
    ),
    (
        9,
        300,
        &PROTECTED,
        r#"{"ca":[],"packet":9,"pcr":256,"pid":300,"program":7,"streams":[{"ca":[{"pid":4387,"system":100}],"pid":256,"type":27},{"ca":[],"pid":257,"type":15}],"table":"pmt","version":5}"#,
    ),
];

// Adds the line of a row's section to one text, and the row's line to another.
fn add_line(alloc: Global, row: &Row, text: &mut String, due: &mut String) -> Option<()> {
    let (packet, pid, section, line) = *row;
    push_line(alloc, text, packet, pid, &table_on(pid, section)).ok()?;
    due.push_str(line).ok()?;
    due.push('\n').ok()
}

// Whether the lines of all sections are those of their rows.
fn are_shown(alloc: Global) -> Option<bool> {
    let mut text = String::new(alloc);
    let mut due = String::new(alloc);
    for row in &SHOWN {
        add_line(alloc, row, &mut text, &mut due)?;
    }
    Some(text.as_str() == due.as_str())
}

#[test]
fn sections_are_shown(rt: HostRuntime) {
    assert!(rt; are_shown(rt.alloc()) == Some(true));
}

// PIDs, sections that they may not carry, and the fault.
static FAULTS: [(u16, &[u8], &str); 5] = [
    (0, &[], "length"),
    (1, &PAT, "table"),
    (4096, &PAT, "table"),
    (0, &CAT, "table"),
    (0, &PMT, "table"),
];

// Whether the line of the section says that it has this fault.
fn is_faulty(alloc: Global, pid: u16, section: &[u8], fault: &str) -> bool {
    let Ok(due) = format!(in alloc; "{{\"fault\":\"{fault}\",\"packet\":7,\"pid\":{pid}}}\n") else {
        return false;
    };
    let mut text = String::new(alloc);
    let pushed = push_line(alloc, &mut text, 7, pid, &table_on(pid, section));
    pushed.is_ok() && text == due
}

#[test]
fn faults_are_shown(rt: HostRuntime) {
    let alloc = rt.alloc();
    let mut damaged = PAT;
    damaged[15] ^= 1;
    let mut short_form = PAT;
    short_form[1] &= 0x7F;
    assert!(rt; is_faulty(alloc, 0, &damaged, "crc"));
    assert!(rt; is_faulty(alloc, 0, &short_form, "length"));
    assert!(rt; is_faulty(alloc, 0, &PAT[..15], "length"));
    for (pid, section, fault) in &FAULTS {
        assert!(rt; is_faulty(alloc, *pid, section, fault), "pid {pid}");
    }
}
