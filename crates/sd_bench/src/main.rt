//! `sd_bench`: the work of the lower crates, done as often as is asked, to be timed from outside.
#![tactic(auto)]

ghost use Rattle.std.specs.Prelude.{◌≡◌, length};

mod covers;
mod crcs;
mod emms;
mod traces;

use sd_base::fields;
use sd_cipher::{Parity, scramble};
use sd_engine::sample;
use sd_packet::{Packet, is_positional};
use sd_ports::MemSink;
use std::alloc::{AllocError, Global};
use std::process::ExitCode;
use std::{env, io};

/// How many packets of the sample stream are read over and over.
const PACKETS: usize = 4096;

/// The control word of all payloads.
const WORD: [u8; 32] = [0x5A; 32];

fn main(rt: HostRuntime) -> io::Result<ExitCode> {
    let words: Vec<String> = env::args(&rt)?.skip(1).collect(rt.alloc())?;
    match measured(rt.alloc(), &words)? {
        Some(number) => {
            println!(rt; "{number}")?;
            Ok(ExitCode::SUCCESS)
        }
        None => Ok(ExitCode::from(1)),
    }
}

/// The number that the work of these words comes to, or `None` where they name none.
fn measured(alloc: Global, words: &[String]) -> Result<Option<u64>, AllocError> {
    let [work, count] = words else {
        return Ok(None);
    };
    let Ok(count) = count.as_str().parse::<u32>() else {
        return Ok(None);
    };
    match work.as_str() {
        "crcs" => return Ok(Some(crcs::summed(count))),
        "emms" => return emms::searched(alloc, count),
        "traces" => return traces::traced(alloc, count),
        _ => {}
    }
    if let Some(number) = covers::measured(alloc, work.as_str(), count)? {
        return Ok(Some(number));
    }
    let Ok(mut sink) = MemSink::new(alloc, PACKETS * 188, PACKETS * 188, Vec::new(alloc)) else {
        return Err(AllocError);
    };
    if sample(1, PACKETS as u32, &mut sink).is_err() {
        return Ok(None);
    }
    let (packets, _) = sink.bytes().as_chunks::<188>();
    if packets.len() != PACKETS {
        return Ok(None);
    }
    Ok(match work.as_str() {
        "headers" => Some(headers(packets, count)),
        "scramble" => scrambled(packets[4], count),
        _ => None,
    })
}

/// A number of the header fields of so many packets, over and over these.
fn headers(packets: &[[u8; 188]], count: u32) -> u64
    requires { length packets.now ≡ PACKETS }
{
    let mut sum = 0u64;
    for i in 0..count {
        sum = sum
            .wrapping_mul(31)
            .wrapping_add(header(&packets[i as usize % PACKETS]));
    }
    sum
}

/// A number of all fields of a header.
fn header(packet: &[u8; 188]) -> u64 {
    fields! {
        packet;
        sync_byte: 0, 8;
        error: 8, 1;
        unit_start: 9, 1;
        priority: 10, 1;
        pid: 11, 13;
        scrambling: 24, 2;
        adaptation: 26, 2;
        counter: 28, 4;
    }
    sync_byte
        + 3 * error
        + 5 * unit_start
        + 7 * priority
        + 11 * pid
        + 13 * scrambling
        + 17 * adaptation
        + 19 * counter
}

/// A number of so many scramblings of this packet, each at the next position: a byte of each block counts.
fn scrambled(bytes: [u8; 188], count: u32) -> Option<u64> {
    let clear = Packet::new(bytes)?;
    if !is_positional(clear.pid()) || clear.payload_start() == 188 || clear.scrambling() != 0 {
        return None;
    }
    let mut sum = 0u64;
    for position in 0..count {
        let mut packet = clear;
        scramble(&mut packet, &WORD, u64::from(position), Parity::Even);
        let bytes = packet.bytes();
        let byte = bytes[4] ^ bytes[68] ^ bytes[132] ^ bytes[187];
        sum = sum.wrapping_mul(31).wrapping_add(u64::from(byte));
    }
    Some(sum)
}
