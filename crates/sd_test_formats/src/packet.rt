use crate::known::PAT;
use sd_packet::{Packet, SIZE, advance, is_positional, pack_section};

fn packet(header: [u8; 4], length: u8) -> Option<Packet> {
    let mut bytes = [0; SIZE];
    bytes[..4].copy_from_slice(&header);
    bytes[4] = length;
    Packet::new(bytes)
}

// Unit start, PID, scrambling, adaptation and counter.
type Fields = (bool, u16, u8, u8, u8);

static HEADERS: [([u8; 4], Fields); 4] = [
    ([0x47, 0x41, 0x23, 0x9A], (true, 0x0123, 2, 1, 10)),
    ([0x47, 0x1F, 0xFF, 0x10], (false, 0x1FFF, 0, 1, 0)),
    ([0x47, 0x60, 0x00, 0x37], (true, 0x0000, 0, 3, 7)),
    ([0x47, 0xA0, 0x20, 0xEF], (false, 0x0020, 3, 2, 15)),
];

fn fields_of(packet: &Packet) -> Fields {
    (
        packet.unit_start(),
        packet.pid(),
        packet.scrambling(),
        packet.adaptation(),
        packet.counter(),
    )
}

// Whether a packet with this header has these fields and the header.
fn is_read(header: [u8; 4], fields: Fields) -> Option<bool> {
    let packet = packet(header, 0)?;
    Some(fields_of(&packet) == fields && &packet.bytes()[..4] == header.as_slice())
}

#[test]
fn headers_are_read(rt: HostRuntime) {
    for (header, fields) in &HEADERS {
        assert!(rt; is_read(*header, *fields) == Some(true));
    }
    assert!(rt; packet([0x46, 0x41, 0x23, 0x9A], 0).is_none());
}

// The last header byte, the byte after it, where the payload starts, how long it is.
static PAYLOADS: [(u8, u8, usize, usize); 7] = [
    (0x10, 0xFF, 4, 184),
    (0x30, 0, 5, 183),
    (0x30, 182, 187, 1),
    (0x30, 183, 188, 0),
    (0x30, 255, 188, 0),
    (0x20, 10, 188, 0),
    (0x00, 10, 188, 0),
];

// Where the payload starts, how long it is, and whether the packet is placed.
fn payload_of(controls: u8, length: u8) -> Option<(usize, usize, bool)> {
    let packet = packet([0x47, 0x01, 0x00, controls], length)?;
    Some((
        packet.payload_start(),
        packet.payload().len(),
        packet.is_placed(),
    ))
}

#[test]
fn payloads_start_after_adaptation_fields(rt: HostRuntime) {
    for (controls, length, start, left) in &PAYLOADS {
        assert!(rt; payload_of(*controls, *length) == Some((*start, *left, *left > 0)));
    }
}

static PAYLOAD: [u8; 184] = [0xA5; 184];

// The header, the byte after it, a control, and the last byte of the header with it.
static SET: [([u8; 4], u8, u8, u8); 3] = [
    ([0x47, 0x01, 0x00, 0x17], 0xFF, 0b10, 0x97),
    ([0x47, 0x01, 0x00, 0xF9], 2, 0b00, 0x39),
    ([0x47, 0x01, 0x00, 0x30], 182, 0b11, 0xF0),
];

// Whether a packet in which the payload and the control are set has them.
fn is_set(header: [u8; 4], length: u8, control: u8, due: u8) -> Option<bool> {
    let mut packet = packet(header, length)?;
    let size = packet.payload().len();
    if size > 184 || control >= 4 {
        return None;
    }
    let payload = &PAYLOAD[..size];
    packet.set_payload(payload);
    packet.set_scrambling(control);
    let after = if size == 184 { 0xA5 } else { length };
    let bytes = packet.bytes();
    Some(packet.payload() == payload && (bytes[3], bytes[4]) == (due, after))
}

#[test]
fn what_is_set_is_read(rt: HostRuntime) {
    for (header, length, control, due) in &SET {
        assert!(rt; is_set(*header, *length, *control, *due) == Some(true));
    }
}

// Counters, and the positions to which they lead one after the other.
static POSITIONS: [(u8, u64); 4] = [(14, 30), (15, 31), (0, 32), (0, 48)];

static PIDS: [(u16, bool); 6] = [
    (0x0000, false),
    (0x001F, false),
    (0x0020, true),
    (0x1FEF, true),
    (0x1FF0, false),
    (0x1FFF, false),
];

#[test]
fn counters_lead_to_positions(rt: HostRuntime) {
    let mut position = 15;
    for (counter, next) in &POSITIONS {
        assert!(rt; *counter < 16 && position < 1 << 63);
        position = advance(position, *counter);
        assert!(rt; position == *next);
    }
    for (pid, known) in &PIDS {
        assert!(rt; is_positional(*pid) == *known, "PID {pid}");
    }
}

#[test]
fn a_section_fills_a_packet(rt: HostRuntime) {
    let packet = pack_section(&PAT, 0, 0);
    let bytes = packet.bytes();
    assert!(rt; &bytes[..8] == [0x47, 0x40, 0x00, 0x10, 0x00, 0x00, 0xB0, 0x0D].as_slice());
    assert!(rt; &bytes[5..21] == PAT.as_slice());
    assert!(rt; (bytes[21], bytes[187]) == (0xFF, 0xFF));
    let other = pack_section(&PAT, 0x1234, 11);
    assert!(rt; &other.bytes()[..5] == [0x47, 0x52, 0x34, 0x1B, 0x00].as_slice());
}
