ghost use Rattle.std.specs.Prelude.{◌<◌};

use crate::known::{CAT, PAT, PMT, REWRITTEN};
use sd_packet::{Packet, pack_section};
use sd_psi::{
    Descriptor, Descriptors, FormFault, Stream, Streams, cat_in, cat_of, pat_in, pat_of, pmt_in,
    restore_pmt, rewrite_pmt,
};
use sd_section::{read_one, seal};

// Whether the packet's PAT has one program, whose PMT has PID 0x1000.
fn has_one_program(packet: &Packet) -> Option<bool> {
    if packet.payload_start() == 188 {
        return None;
    }
    let pat = pat_of(packet).ok()?;
    let mut programs = pat.programs();
    let are_programs = (programs.next(), programs.next()) == (Some((1, 0x1000)), None);
    let mut pids = pat.pmt_pids();
    let are_pids = (pids.next(), pids.next()) == (Some(0x1000), None);
    let is_said = (pat.stream_id(), pat.version(), pat.current()) == (1, 0, true);
    Some(is_said && are_programs && are_pids)
}

#[test]
fn a_pat_is_read(rt: HostRuntime) {
    assert!(rt; has_one_program(&pack_section(&PAT, 0, 0)) == Some(true));
}

// The only one of the descriptors.
fn only<'a>(mut descriptors: Descriptors<'a>) -> Option<Descriptor<'a>> {
    let first = descriptors.next();
    if descriptors.next().is_none() {
        first
    } else {
        None
    }
}

// Whether the packet's CAT has one descriptor, the CA_descriptor of the sample.
fn has_one_system(packet: &Packet) -> Option<bool> {
    if packet.payload_start() == 188 {
        return None;
    }
    let cat = cat_of(packet).ok()?;
    let descriptor = only(cat.descriptors())?;
    let is_said = (cat.version(), cat.current()) == (0, true);
    Some(is_said && is_sample(descriptor)?)
}

fn is_sample(descriptor: Descriptor<'_>) -> Option<bool> {
    let ca = descriptor.ca()?;
    let is_body = descriptor.tag() == 9 && descriptor.body() == &CAT[10..16];
    let is_tuned = (ca.system(), ca.pid()) == (0x1234, 0x1F0);
    Some(is_body && is_tuned && ca.private() == [0xE1, 0xF1].as_slice())
}

#[test]
fn a_cat_is_read(rt: HostRuntime) {
    assert!(rt; has_one_system(&pack_section(&CAT, 1, 0)) == Some(true));
}

// Whether the section is a PMT with one descriptor, the one of the sample, and its two streams.
fn has_two_streams(bytes: &[u8]) -> Option<bool> {
    let section = read_one(bytes).ok()?;
    let pmt = pmt_in(&section)?;
    let descriptor = only(pmt.descriptors())?;
    let is_said = (pmt.program(), pmt.version(), pmt.current(), pmt.pcr()) == (1, 0, true, 0x100);
    Some(is_said && descriptor.body() == &REWRITTEN[14..18] && are_bare(pmt.streams())?)
}

// Whether the streams are the two of the sample, without descriptors.
fn are_bare(mut streams: Streams<'_>) -> Option<bool> {
    let first = streams.next()?;
    let second = streams.next()?;
    Some(is_bare(&first, 0x1B, 0x100) && is_bare(&second, 0x0F, 0x101) && streams.next().is_none())
}

fn is_bare(stream: &Stream<'_>, stream_type: u8, pid: u16) -> bool {
    let is_named = (stream.stream_type(), stream.pid()) == (stream_type, pid);
    is_named && stream.descriptors().next().is_none()
}

#[test]
fn a_pmt_is_read(rt: HostRuntime) {
    assert!(rt; has_two_streams(&REWRITTEN) == Some(true));
}

// Whether the section is a PAT, a CAT and a PMT.
fn tables_in(bytes: &[u8]) -> Option<(bool, bool, bool)> {
    let section = read_one(bytes).ok()?;
    Some((
        pat_in(&section).is_some(),
        cat_in(&section).is_some(),
        pmt_in(&section).is_some(),
    ))
}

#[test]
fn sections_are_tables_or_not(rt: HostRuntime) {
    assert!(rt; tables_in(&PAT) == Some((true, false, false)));
    assert!(rt; tables_in(&CAT) == Some((false, true, false)));
    assert!(rt; tables_in(&PMT) == Some((false, false, true)));
}

// The section's packet with another byte in one place, and then with a right CRC, if it is to have one.
fn changed(section: &[u8], place: usize, byte: u8, sealed: bool) -> Option<Packet> {
    if section.len() < 4 || section.len() > 183 || place >= 188 {
        return None;
    }
    let mut bytes = *pack_section(section, 0x1000, 0).bytes();
    bytes[place] = byte;
    if sealed {
        seal(&mut bytes[5..5 + section.len()]);
    }
    Packet::new(bytes)
}

fn pmt_fault(place: usize, byte: u8, sealed: bool) -> Option<FormFault> {
    let mut packet = changed(&PMT, place, byte, sealed)?;
    if packet.payload_start() == 188 {
        return None;
    }
    rewrite_pmt(&mut packet, 0x1234, 0x1F1).err()
}

fn pat_fault(place: usize, byte: u8, sealed: bool) -> Option<FormFault> {
    let packet = changed(&PAT, place, byte, sealed)?;
    if packet.payload_start() == 188 {
        return None;
    }
    pat_of(&packet).err()
}

fn cat_fault(place: usize, byte: u8, sealed: bool) -> Option<FormFault> {
    let packet = changed(&CAT, place, byte, sealed)?;
    if packet.payload_start() == 188 {
        return None;
    }
    cat_of(&packet).err()
}

// A place of the packet, the byte there, whether the CRC is right: what is wrong.
type Change = (usize, u8, bool, FormFault);

static OF_A_PMT: [Change; 13] = [
    (1, 0x10, false, FormFault::Pointer),
    (4, 0x01, false, FormFault::Pointer),
    (5, 0x00, true, FormFault::Table),
    (6, 0x30, true, FormFault::Table),
    (11, 0x01, true, FormFault::Table),
    (12, 0x01, true, FormFault::Table),
    (7, 0x0C, true, FormFault::Length),
    (7, 0xB5, true, FormFault::Length),
    (16, 0x0B, true, FormFault::Length),
    (
        30,
        0x9A,
        false,
        FormFault::Crc {
            found: 0x2F44_B99A,
            due: 0x2F44_B99B,
        },
    ),
    (31, 0x00, false, FormFault::Trailing),
    (16, 0x05, true, FormFault::Descriptor),
    (26, 0x01, true, FormFault::Descriptor),
];

static OF_A_PAT: [Change; 5] = [
    (4, 0x01, false, FormFault::Pointer),
    (5, 0x01, true, FormFault::Table),
    (7, 0x08, true, FormFault::Length),
    (7, 0x0E, true, FormFault::Length),
    (31, 0x00, false, FormFault::Trailing),
];

static OF_A_CAT: [Change; 5] = [
    (4, 0x01, false, FormFault::Pointer),
    (5, 0x00, true, FormFault::Table),
    (7, 0x08, true, FormFault::Length),
    (31, 0x00, false, FormFault::Trailing),
    (14, 0x05, true, FormFault::Descriptor),
];

#[test]
fn each_fault_of_a_pmt(rt: HostRuntime) {
    for (place, byte, sealed, fault) in &OF_A_PMT {
        assert!(rt; pmt_fault(*place, *byte, *sealed) == Some(*fault));
    }
}

#[test]
fn each_fault_of_a_pat_and_a_cat(rt: HostRuntime) {
    for (place, byte, sealed, fault) in &OF_A_PAT {
        assert!(rt; pat_fault(*place, *byte, *sealed) == Some(*fault));
    }
    for (place, byte, sealed, fault) in &OF_A_CAT {
        assert!(rt; cat_fault(*place, *byte, *sealed) == Some(*fault));
    }
}

// The packet rewritten and restored, each where that may be done.
fn rewritten(packet: &Packet, ca: u16, pid: u16) -> Result<Packet, FormFault>
    requires { pid < 8192 }
{
    let mut copy = *packet;
    if copy.payload_start() == 188 {
        return Err(FormFault::Pointer);
    }
    rewrite_pmt(&mut copy, ca, pid)?;
    Ok(copy)
}

fn restored(packet: &Packet, ca: u16, pid: u16) -> Result<Packet, FormFault>
    requires { pid < 8192 }
{
    let mut copy = *packet;
    if copy.payload_start() == 188 {
        return Err(FormFault::Pointer);
    }
    restore_pmt(&mut copy, ca, pid)?;
    Ok(copy)
}

// Whether the packet isn't restored because it hasn't this descriptor.
fn lacks(packet: &Packet, ca: u16, pid: u16) -> bool
    requires { pid < 8192 }
{
    restored(packet, ca, pid) == Err(FormFault::Descriptor)
}

#[test]
fn a_pmt_is_rewritten_and_restored(rt: HostRuntime) {
    let packet = pack_section(&PMT, 0x1000, 7);
    let with_ours = pack_section(&REWRITTEN, 0x1000, 7);
    assert!(rt; rewritten(&packet, 0x1234, 0x1F1) == Ok(with_ours));
    assert!(rt; restored(&with_ours, 0x1234, 0x1F1) == Ok(packet));
    assert!(rt; lacks(&with_ours, 0x1235, 0x1F1) && lacks(&with_ours, 0x1234, 0x1F0));
    assert!(rt; lacks(&packet, 0x1234, 0x1F1));
}

// A PMT of 24 to 178 bytes, and zeros after it: one stream, with one descriptor.
fn long_section(count: u8) -> [u8; 178] {
    let count = count.clamp(24, 178);
    let mut section = [0; 178];
    section[..12].copy_from_slice(&PMT[..12]);
    section[2] = count - 3;
    section[12..17].copy_from_slice(&[0x06, 0xE1, 0x02, 0xF0, count - 21]);
    section[17] = 0x0A;
    section[18] = count - 23;
    seal(&mut section[..usize::from(count)]);
    section
}

// The packet of such a PMT.
fn long_pmt(count: u8) -> Packet {
    pack_section(
        &long_section(count)[..usize::from(count.clamp(24, 178))],
        0x1000,
        0,
    )
}

// Whether the packet has room for one descriptor of ours, and not for two.
fn has_room_for_one(packet: &Packet) -> Result<bool, FormFault> {
    let with_ours = rewritten(packet, 0x1234, 0x1F1)?;
    let are_too_many = rewritten(&with_ours, 0x1234, 0x1F1) == Err(FormFault::NoRoom);
    Ok(restored(&with_ours, 0x1234, 0x1F1) == Ok(*packet) && are_too_many)
}

#[test]
fn six_bytes_of_room(rt: HostRuntime) {
    assert!(rt; has_room_for_one(&long_pmt(177)) == Ok(true));
    assert!(rt; has_room_for_one(&long_pmt(178)) == Err(FormFault::NoRoom));
}

// Whether the first stream of the PMT has one descriptor, of so many bytes, which is no CA_descriptor.
fn has_language(bytes: &[u8], length: usize) -> Option<bool> {
    let section = read_one(bytes).ok()?;
    let stream = pmt_in(&section)?.streams().next()?;
    let descriptor = only(stream.descriptors())?;
    let is_told = (descriptor.tag(), descriptor.body().len()) == (0x0A, length);
    Some(is_told && descriptor.ca().is_none())
}

#[test]
fn a_stream_has_descriptors(rt: HostRuntime) {
    assert!(rt; has_language(&long_section(178), 155) == Some(true));
}
