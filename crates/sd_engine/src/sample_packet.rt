ghost use Rattle.std.specs.Prelude.{◌≡◌, ◌-◌, ◌%◌, ◌<◌, ◌≤◌, ◌++◌, length, replicate, take};
ghost use Rattle.sd_packet.specs.Packing.{section_packet};
ghost use Rattle.sd_engine.specs.Sample.{next_state, state_at, generated, pid_at, counter_at, generated_in, header_at};
ghost use Rattle.sd_engine.specs.Sample.{adaptation_field, sample_packet_at};

use crate::sample_stream::MOST_SAMPLE_PACKETS;
use crate::seeking::SYNC_BYTE;
use sd_packet::{SIZE, pack_section};

// Program 1 has its PMT on PID 0x1000, and there its streams of types 0x1B and 0x0F on PIDs 0x0100 and 0x0101.
const PAT: [u8; 16] = [
    0x00, 0xB0, 0x0D, 0x00, 0x01, 0xC1, 0x00, 0x00, 0x00, 0x01, 0xF0, 0x00, 0x2A, 0xB1, 0x04, 0xB2,
];

const PMT: [u8; 26] = [
    0x02, 0xB0, 0x17, 0x00, 0x01, 0xC1, 0x00, 0x00, 0xE1, 0x00, 0xF0, 0x00, 0x1B, 0xE1, 0x00, 0xF0,
    0x00, 0x0F, 0xE1, 0x01, 0xF0, 0x00, 0x2F, 0x44, 0xB9, 0x9B,
];

/// Packet k, from the generator's state before it, which becomes the state after it.
#[tactic(auto, using(crate::proofs::SamplePackets::pat_packet, crate::proofs::SamplePackets::pmt_packet, crate::proofs::SamplePackets::null_packet, crate::proofs::SamplePackets::adapted_packet, crate::proofs::SamplePackets::plain_packet, crate::proofs::SamplePackets::no_bytes, crate::proofs::SamplePackets::adapted_bytes, crate::proofs::SamplePackets::plain_bytes))]
pub fn packet(k: u32, state: &mut u64) -> [u8; SIZE]
    requires { k < MOST_SAMPLE_PACKETS }
    ensures value { result ≡ sample_packet_at k state.old }
    ensures state { state.new ≡ state_at state.old (generated_in k) }
{
    match k % 100 {
        0 => table(&PAT, k),
        1 => table(&PMT, k),
        2 => stuffed(k, 0b01),
        _ if k % 10 == 9 => adapted(k, state),
        _ => plain(k, state),
    }
}

// Packet k where it is a section by itself.
fn table(section: &[u8], k: u32) -> [u8; SIZE]
    requires some { 1 ≤ length section.now }
    requires room { length section.now ≤ 183 }
    requires number { k < MOST_SAMPLE_PACKETS }
    ensures { result ≡ section_packet section.now (pid_at k) (counter_at k) }
{
    *pack_section(section, pid(k), counter(k)).bytes()
}

// Packet k where it has an adaptation field.
#[tactic(auto, using(crate::proofs::SamplePackets::adapted_laid))]
fn adapted(k: u32, state: &mut u64) -> [u8; SIZE]
    requires { k < MOST_SAMPLE_PACKETS }
    ensures value { result ≡ header_at k 3 ++ (adaptation_field ++ generated state.old 176) }
    ensures state { state.new ≡ state_at state.old 176 }
{
    let mut bytes = stuffed(k, 0b11);
    bytes[4] = 7;
    bytes[5] = 0;
    *state = generate(*state, &mut bytes, 12);
    bytes
}

// Packet k where it is payload alone.
#[tactic(auto, using(crate::proofs::SamplePackets::plain_laid))]
fn plain(k: u32, state: &mut u64) -> [u8; SIZE]
    requires { k < MOST_SAMPLE_PACKETS }
    ensures value { result ≡ header_at k 1 ++ generated state.old 184 }
    ensures state { state.new ≡ state_at state.old 184 }
{
    let mut bytes = stuffed(k, 0b01);
    *state = generate(*state, &mut bytes, 4);
    bytes
}

// The header of packet k and stuffing after it.
fn stuffed(k: u32, control: u8) -> [u8; SIZE]
    requires number { k < MOST_SAMPLE_PACKETS }
    requires control { control < 4 }
    ensures { result ≡ header_at k control ++ replicate 184 0xFF }
{
    let pid = pid(k);
    let mut bytes = [0xFF; SIZE];
    bytes[0] = SYNC_BYTE;
    bytes[1] = (pid / 256) as u8;
    bytes[2] = (pid % 256) as u8;
    bytes[3] = control * 16 + counter(k);
    bytes
}

// The PID of packet k.
#[tactic(auto, using(crate::proofs::SampleRounds::pat_pid, crate::proofs::SampleRounds::pmt_pid, crate::proofs::SampleRounds::null_pid, crate::proofs::SampleRounds::first_pid, crate::proofs::SampleRounds::second_pid))]
fn pid(k: u32) -> u16
    ensures value { result ≡ pid_at k }
    ensures fits { result < 8192 }
{
    match k % 100 {
        0 => 0x0000,
        1 => 0x1000,
        2 => 0x1FFF,
        _ if k % 4 == 3 => 0x0101,
        _ => 0x0100,
    }
}

// The continuity counter of packet k.
fn counter(k: u32) -> u8
    ensures value { result ≡ counter_at k }
    ensures fits { result < 16 }
{
    (earlier(k) % 16) as u8
}

// How many packets of its PID stand before packet k, but none before a null packet: of a hundred packets three aren't
// of the program's streams, and of four packets one is of its second.
#[tactic(auto, using(crate::proofs::SampleRounds::pat_counter, crate::proofs::SampleRounds::pmt_counter, crate::proofs::SampleRounds::null_counter, crate::proofs::SampleRounds::first_counter, crate::proofs::SampleRounds::second_counter))]
fn earlier(k: u32) -> u32
    ensures { counter_at k ≡ result % 16 }
{
    match k % 100 {
        0 => k / 100,
        1 => k / 100,
        2 => 0,
        _ if k % 4 == 3 => k / 4,
        _ => k - k / 4 - 3 * (k / 100 + 1),
    }
}

// Fills the packet from this place on, and answers the generator's state after that.
#[tactic(auto, using(crate::proofs::Generator::none_passed, crate::proofs::Generator::none_generated, crate::proofs::Generator::all_generated))]
fn generate(mut state: u64, bytes: &mut [u8; SIZE], start: usize) -> u64
    requires { start ≤ 188 }
    ensures bytes { bytes.new ≡ take start bytes.old ++ generated state (188 - start) }
    ensures state { result ≡ state_at state (188 - start) }
{
    for i in start..188 {
        state = next(state);
        bytes[i] = (state >> 56) as u8;
    }
    state
}

// The generator's next state.
fn next(state: u64) -> u64
    ensures { result ≡ next_state state }
{
    state
        .wrapping_mul(6364136223846793005)
        .wrapping_add(1442695040888963407)
}
