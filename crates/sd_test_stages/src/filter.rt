use crate::packets::packet;
use sd_message::{EmmFault, read_ecm, read_emm};
use sd_packet::{Packet, pack_section};
use sd_psi::{Tuning, cat_tuning};
use sd_receive::{Channel, channel_of};
use sd_section::seal;
use sd_tree_keys::Height;

// A CAT for system 0x1234, with entitlements on PID 0x1F0 and control messages on PID 0x1F1.
static CAT: [u8; 20] = [
    0x01, 0xB0, 0x11, 0xFF, 0xFF, 0xC1, 0x00, 0x00, 0x09, 0x06, 0x12, 0x34, 0xE1, 0xF0, 0xE1, 0xF1,
    0x92, 0xF9, 0x4E, 0xEB,
];

// Entitlements for period 1, and part 0 of control message 1, as an independent implementation wrote them.
const EMM: &str =
    "4741f0180082b04c0000c10000000000010000000100015a35db9de2fafb13b54f559d8ea4512e010000000000000000a480\
    e8b7bfae03cfe18c64333764eb0aff0e58f98b43809e2b16442e1ce4cea55f243d7a";

const ECM: &str =
    "4741f11a0080b0630000c10000000000010000000000000000000000c8006682bbbb66a6e9b949b2d21a30e2641c265e6eb1\
    f4430b125468c6302b38b7573085294b1e2d9a320ffe227acf4837b303010000000000009f01010000000000411000000000\
    0000119e493e13";

// What is taken of the CAT on PID 1, and on PID 2, where this byte stands at a place in it.
fn tunings(place: usize, byte: u8) -> Option<(Option<Tuning>, Option<Tuning>)> {
    let mut section = CAT;
    *section.get_mut(place)? = byte;
    seal(&mut section);
    Some((
        cat_tuning(0x1234, &pack_section(&section, 1, 0)),
        cat_tuning(0x1234, &pack_section(&section, 2, 0)),
    ))
}

// A place in the CAT, the byte that stands there, and the PIDs that are taken.
static TUNINGS: [(usize, u8, Option<(u16, u16)>); 6] = [
    (15, 0xF1, Some((0x1F0, 0x1F1))),
    (12, 0xE0, Some((0x0F0, 0x1F1))),
    // Another tag, another system, equal PIDs, a PID that has no positions.
    (8, 0x0A, None),
    (11, 0x35, None),
    (15, 0xF0, None),
    (12, 0xFF, None),
];

#[test]
fn a_cat_for_the_system_is_taken(rt: HostRuntime) {
    for (place, byte, due) in &TUNINGS {
        let due = due.map(|(emm, ecm)| Tuning { emm, ecm });
        assert!(rt; tunings(*place, *byte) == Some((due, None)));
    }
}

// Whether these are read as entitlements for period 1 and a part of control message 1, and neither as the other.
fn are_read(h: Height, emm: &Packet, ecm: &Packet) -> bool {
    let period = read_emm(h, emm).ok().flatten().map(|emm| emm.period);
    let number = read_ecm(ecm).ok().flatten().map(|part| part.number);
    (period, number) == (Some(1), Some(1))
        && read_emm(h, ecm) == Ok(None)
        && read_ecm(emm) == Ok(None)
}

// The packet of entitlements with a number of sections that the number of sets doesn't come to.
fn miscounted(emm: &Packet) -> Option<Packet> {
    let mut section = *emm.bytes();
    section[22] = 2;
    seal(&mut section[5..84]);
    Packet::new(section)
}

// Whether packets are told apart by the PIDs of a tuning, and not by those of another.
fn are_told_apart(emm: &Packet, ecm: &Packet) -> bool {
    let cat = pack_section(&CAT, 1, 0);
    let tuned = Tuning {
        emm: 0x1F0,
        ecm: 0x1F1,
    };
    let other = Tuning {
        emm: 0x100,
        ecm: 0x101,
    };
    let channels = [
        channel_of(tuned, emm),
        channel_of(tuned, ecm),
        channel_of(tuned, &cat),
        channel_of(other, emm),
    ];
    channels == [Channel::Emm, Channel::Ecm, Channel::Cat, Channel::Other]
}

// Whether the packets are heard by their PIDs, and refused if they are miscounted.
fn are_heard() -> Option<bool> {
    let h = Height::new(3)?;
    let emm = packet(EMM)?;
    let ecm = packet(ECM)?;
    let refused = read_emm(h, &miscounted(&emm)?) == Err(EmmFault::Count);
    Some(are_told_apart(&emm, &ecm) && are_read(h, &emm, &ecm) && refused)
}

#[test]
fn packets_are_heard_by_their_pids(rt: HostRuntime) {
    assert!(rt; are_heard() == Some(true));
}
