//! A period's entitlements, written, read and searched.

ghost use Rattle.std.specs.Prelude.{◌≡◌, ◌^◌, ◌<◌, ◌≤◌, IfOk, length, vec_len};
ghost use Rattle.sd_tree_keys.specs.SetNames.{AreAscending};
ghost use Rattle.sd_message.specs.EmmSpelled.{listed_entries, names_in};
ghost use Rattle.sd_message.specs.EmmForm.{AreSets, IsEmm};

use sd_message::{Emm, Entry, are_ascending, read_emm, section_count, write_emm};
use sd_packet::Packet;
use sd_tree_keys::{Height, Leaf, SetName, contains};
use std::alloc::{AllocError, Global};

/// How many sets the period has.
const SETS: u32 = 8191;

/// The set of node FIRST + k is what is below its right child.
const FIRST: u32 = 8192;

/// A leaf below the right child of the last of these nodes.
const LEAF: u32 = ((FIRST + SETS - 1) * 2 + 1) * 64 - (1 << 20);

/// The PID of the packets.
const PID: u16 = 496;

/// A number of so many periods: all sections of each are written, and read until one names a set of the leaf, which the
/// last does.
// What else `main` does is not to change how this is compiled.
#[inline(never)]
pub fn searched(alloc: Global, count: u32) -> Result<Option<u64>, AllocError> {
    let entries = entries(alloc)?;
    let Some(h) = Height::new(20) else {
        return Ok(None);
    };
    let Some(leaf) = Leaf::new(h, LEAF) else {
        return Ok(None);
    };
    if !are_ascending(&entries) {
        return Ok(None);
    }
    let mut packets = Vec::new(alloc);
    let mut sum = 0u64;
    for period in 0..count {
        packets.clear();
        write_all(period, &entries, &mut packets)?;
        let Some(key) = key_in(h, leaf, &packets) else {
            return Ok(None);
        };
        sum = sum
            .wrapping_mul(31)
            .wrapping_add(key)
            .wrapping_add(number_of(&packets));
    }
    Ok(Some(sum))
}

// The period's sets, each with the next bytes of a simple generator.
fn entries(alloc: Global) -> Result<Vec<Entry>, AllocError>
    ensures { IfOk result (λ entries. vec_len entries ≡ SETS) }
{
    let mut entries = Vec::new(alloc);
    let mut state = 1u64;
    for k in 0..SETS {
        let i = FIRST + k;
        let mut wrapped = [0; 32];
        for byte in wrapped.iter_mut() {
            state = state
                .wrapping_mul(6_364_136_223_846_793_005)
                .wrapping_add(1_442_695_040_888_963_407);
            *byte = (state >> 56) as u8;
        }
        entries.push(Entry {
            name: SetName::Diff { i, j: 2 * i },
            wrapped,
        })?;
    }
    Ok(entries)
}

// Writes all sections of the period.
fn write_all(period: u32, entries: &[Entry], packets: &mut Vec<Packet>) -> Result<(), AllocError>
    requires sets { length entries.now ≤ SETS }
    requires ascending { AreAscending (names_in entries.now) }
{
    for index in 0..section_count(entries.len()) {
        let emm = Emm::of_period(None, period, &[0x5A; 16], entries, index);
        packets.push(write_emm(&emm, PID, (index % 16) as u8))?;
    }
    Ok(())
}

// The key that the first packet with a set of the leaf has.
fn key_in(h: Height, u: Leaf, packets: &[Packet]) -> Option<u64>
    requires { u < 2 ^ h }
{
    for packet in packets {
        if let Some(key) = key_of(h, u, packet) {
            return Some(key);
        }
    }
    None
}

// The first bytes of the wrapped key for a set of the packet that has the leaf.
fn key_of(h: Height, u: Leaf, packet: &Packet) -> Option<u64>
    requires { u < 2 ^ h }
{
    match read_emm(h, packet) {
        Ok(Some(emm)) => {
            let [a, b, c, d, e, f, g, last, ..] = holder(h, u, &emm)?.wrapped;
            Some(u64::from_be_bytes([a, b, c, d, e, f, g, last]))
        }
        _ => None,
    }
}

// The entry whose set has the leaf.
fn holder(h: Height, u: Leaf, emm: &Emm) -> Option<Entry>
    requires leaf { u < 2 ^ h }
    requires form { IsEmm emm.now }
    requires sets { AreSets h emm.now.sets (listed_entries emm.now) }
{
    for entry in emm.listed() {
        if contains(h, entry.name, u) {
            return Some(*entry);
        }
    }
    None
}

// A number of a byte of each packet: the last of the CRC where the section has three entries.
fn number_of(packets: &[Packet]) -> u64 {
    let mut sum = 0u64;
    for packet in packets {
        sum = sum
            .wrapping_mul(31)
            .wrapping_add(u64::from(packet.bytes()[163]));
    }
    sum
}
