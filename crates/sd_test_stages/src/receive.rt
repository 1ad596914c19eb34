ghost use Rattle.std.specs.Prelude.{◌≡◌, ◌<◌, ◌≤◌, [], IfSome};
ghost use Rattle.sd_receive.specs.Receiving.{HasReceived, MayReceive};

use crate::packets::{ALL, beginning};
use hex::FromHex;
use sd_base::Steps;
use sd_engine::{DriveFault, StageFault, drive};
use sd_packet::Packet;
use sd_ports::MemSink;
use sd_ports_memory::MemSource;
use sd_receive::{Ending, Receiver, StreamFault};
use sd_section::seal;
use sd_site_cards::Card;
use sha2::{Digest, Sha256};
use std::alloc::Global;
use std::marker::Brand;
use std::sync::ledger::{Blank, Ledger};

// The card of leaf 2 in a tree of height 3.
const CARD: &str = "\
     5344434401030000000212349a9aea255b8e54be50fc2cb5d0b83ebf64120b12e68d82699face4ee860511dc0938f5db1e2e38332732e7\
     da82f1ad3e4ce6cfe09cd3dfda4ac268d6eabfa59aee4d21c982312fd80834f911ed891d93214f9f72536fa8db07c548dd30da1f202582\
     a4cfaf5a9444dd58050be50a075f801493e197b2c04bac59cabb73e8e6e7ccaf99236088b4a8bd28a8999e9c8d27cf8e23a0f26c3bdce6\
     084602a32625a3f7f3ee49a353c81995d54a82af23247fe5ce67a5696d2cfed25841b2a693d0e12cc03168d502156fd4e14b34743149c7\
     c963b493c4075571946f3c3980e9d12312e36057a5c45afdecb73654e952b3c8";

// The packets of a broadcast of four clear packets that an independent implementation made, up to the stuffing.
pub(crate) static PACKETS: [&str; 8] = [
    "474001100001b011ffffc1000009061234e1f0e1f192f94eeb",
    ALL,
    "4741f1100080b04b0000c1000000000000000000000000000000000000008229606edb4eb380c6745a1a0ef112fb4f37fd1a5ac322f2\
     eb828187831d8c4016f21bec8b49a29a6bf944da8fbb98bb002a26ffa7",
    "4701009eecb85568172380d7c15b91adc1ad9b63e1e4bdba3080a4040fdee3a8c602170f08a864eeffb97347d0095177f2ffd14ef281\
     0de9f4f332d5fb4b1d341fc9031cc007214ae0fc6f81f09dc2ae4861accb8661f306a2ad6c3692facaf8314344b2e4decb75f98653c2\
     3e63da408110262778f11fb3c46f014f0089ff45b23b339806b5b5adbd7e447e7afb95bd07edb33a2610fe2179db3ecd83b4c1b0ae50\
     c29cf63d39299e1435609a3a2cccf10a984335d7dcfdfad56f26",
    "4701009f397844715a304c51058db5c165ce90fc5b057510992e99696e94f12a385de9865d683af7bad27d86a02a0936942b294b56b2\
     a0468470f0aed566d09997d6330607ea025e4ee9ee13f590e00ca0f7614a9a20625992bff01b823dc3e35771921d126aeeac613165d6\
     ae062df9ff812fd08fbe0d7c1f0ee647d0ab7bf5c4ae39c78d1b9f869f0bd474b1cd3850b3be88d2f556ad3074dd6a7ef1be929686f2\
     a3308c37811a33f64511b4ab9f9bf47fd99f8bec7ac3dc1293b2",
    "4701009077662dc2c9c3443057a5dbe7b493e98678eb1e7ede20e9ba8189859b54a4f537a74239289b304a42845992e2d25c65d3977f\
     d34b31e6646ad615e1c38d503254201887955d28315a78d1ac81ce95de1e8fec886d7f967c5683a998d6bbcdf8ae57b769b95e0a10ad\
     71f03174535bc831c8d2eb0e6cc73d295553d980817eb70780bc8c9ddde5e8dc2c2d68c7ede05379b04a8ccb9b1f06d9e7f612a09c30\
     1e24acaf7b8557f4ead3a365e906c82a0eb579fa21a5ed7ea736",
    "47010090ee079eb0ee5d2d1758e9ebab51d6020c0875a92fcfece9659edf71a15a211db0ba30cc12586e5320d8341b7387e849f8eacc\
     f32983e9d038ddd2e8e9a8250cfe84ba7a8b2d1fe0c8cc7f3918c741b9813eb9a0b158f720b3f83148f820fb9d4adc0e9e90e7707796\
     07ee4e2421993936aa52dad624ee42b1219616e9ddb13964ec493e7c1e72dc4a71298db0769aaf2b3e95afd322f99fff59615be25e30\
     2eb323198dcba75c1f27e97ca1f430c2302f38ab6cf2b6034c58",
    "4741f1110080b0530000c1000000000001000000000000000000000004018229606edb4eb380c6745a1a0ef112fb4f37fd1a5ac322f2\
     eb828187831d8c4016f21bec8b49a29a6bf944da8fbb98bb010100000000000030c471bce7",
];

// The SHA-256 of the four clear packets.
const CLEAR: &str = "915ed159f855453591af9353b4144cc0cdf5808705c820efa83948d069ab70fd";

// The stream up to its last packet but so many.
fn stream(alloc: Global, left_out: usize) -> Option<Vec<u8>> {
    let mut bytes = Vec::new(alloc);
    for text in PACKETS.get(..PACKETS.len().saturating_sub(left_out))? {
        add_packet(&mut bytes, text)?;
    }
    Some(bytes)
}

fn add_packet(bytes: &mut Vec<u8>, text: &str) -> Option<()> {
    bytes.extend_from_slice(&beginning(text)?).ok()
}

// The card.
pub(crate) fn card(alloc: Global) -> Option<Card> {
    let file = <[u8; 252]>::from_hex(CARD).ok()?;
    Card::read(alloc, &file).ok()
}

// The receiver with the card.
fn receiver(alloc: Global) -> Option<Receiver>
    ensures live { IfSome result MayReceive }
    ensures fresh { IfSome result (HasReceived []) }
{
    match Receiver::new(alloc, card(alloc)?) {
        Ok(receiver) => Some(receiver),
        Err(_) => None,
    }
}

// What is answered for a stream, how it ended, and what was written.
type Answer = (Result<u64, DriveFault<StreamFault>>, Ending, Vec<u8>);

fn driven<L: Ledger>(
    source: &mut MemSource,
    sink: &mut MemSink,
    receiver: &mut Receiver,
    blank: Blank,
) -> Result<u64, DriveFault<StreamFault>>
    requires name { blank.name ≡ L.name }
    requires parts { blank.parts ≡ L.parts }
    requires some { 0 < blank.parts }
    requires live { MayReceive receiver.old }
{
    let mut steps = Steps::<L>::new(blank);
    drive(source, sink, receiver, &mut steps)
}

// The answer for a stream that is read and written so many bytes at a time.
fn opened(alloc: Global, left_out: usize, most: usize) -> Option<Answer>
    requires most { 1 ≤ most }
{
    let mut receiver = receiver(alloc)?;
    let mut sink = MemSink::new(alloc, 1000, most, Vec::new(alloc)).ok()?;
    let mut source = MemSource::new(stream(alloc, left_out)?, most, Vec::new(alloc));
    let result = driven::<Brand>(&mut source, &mut sink, &mut receiver, Blank::new(1));
    Some((result, receiver.ending(), sink.into_bytes()))
}

// Whether these are the four clear packets.
pub(crate) fn are_clear(bytes: &[u8]) -> Option<bool> {
    Some(Sha256::digest(bytes) == <[u8; 32]>::from_hex(CLEAR).ok()?)
}

// How many packets are left out at the end, how many bytes are read and written at a time, the ending, and how many
// bytes are written.
type Row = (usize, usize, Ending, usize);

static STREAMS: [Row; 5] = [
    (0, 1000, Ending::Opened, 752),
    (0, 1, Ending::Opened, 752),
    (1, 1000, Ending::Unclosed(1), 0),
    (6, 1, Ending::Unclosed(0), 0),
    (8, 1, Ending::NoCat, 0),
];

// Whether the row's stream is answered, ended and written as the row says.
fn is_opened(alloc: Global, row: &Row) -> Option<bool> {
    let (left_out, most, due, count) = *row;
    if most == 0 {
        return None;
    }
    let (result, ending, clear) = opened(alloc, left_out, most)?;
    let read = 8u64.saturating_sub(left_out as u64);
    let is_due = (result, ending, clear.len()) == (Ok(read), due, count);
    Some(is_due && (count == 0 || are_clear(&clear) == Some(true)))
}

#[test]
fn streams_are_opened(rt: HostRuntime) {
    for row in &STREAMS {
        assert!(rt; is_opened(rt.alloc(), row) == Some(true));
    }
}

// The packets of the stream, and before the section one like it whose check value is another.
fn with_wrong_ones(alloc: Global) -> Option<Vec<Packet>> {
    let mut packets = Vec::new(alloc);
    for text in PACKETS {
        let bytes = beginning(text)?;
        if text == ALL {
            packets.push(wrong(bytes)?).ok()?;
        }
        packets.push(Packet::new(bytes)?).ok()?;
    }
    Some(packets)
}

// The packet of entitlements whose check value's first byte is changed.
pub(crate) fn wrong(bytes: [u8; 188]) -> Option<Packet> {
    let mut bytes = bytes;
    bytes[23] ^= 1;
    let length = usize::from(u16::from_be_bytes([bytes[6], bytes[7]]) % 4096);
    let section = bytes.get_mut(5..8 + length)?;
    if section.len() >= 4 {
        seal(section);
    }
    Packet::new(bytes)
}

// How many of these packets are refused, where the others are taken.
fn refused<L: Ledger>(
    packets: &[Packet],
    sink: &mut MemSink,
    receiver: &mut Receiver,
    blank: Blank,
) -> Option<usize>
    requires name { blank.name ≡ L.name }
    requires parts { blank.parts ≡ L.parts }
    requires some { 0 < blank.parts }
    requires fresh { HasReceived [] receiver.old }
    requires live { MayReceive receiver.old }
{
    let mut steps = Steps::<L>::new(blank);
    let mut count: usize = 0;
    for packet in packets {
        match receiver.take(packet, sink, &mut steps) {
            Ok(()) => {}
            Err(StageFault::Refused(_)) => count = count.saturating_add(1),
            Err(StageFault::Write) => return None,
        }
    }
    Some(count)
}

// How many packets are refused, how the stream ends, and what is written, if a wrong section comes before the right
// one.
fn opened_after_refusals(alloc: Global) -> Option<(usize, Ending, Vec<u8>)> {
    let mut receiver = receiver(alloc)?;
    let mut sink = MemSink::new(alloc, 1000, 1000, Vec::new(alloc)).ok()?;
    let packets = with_wrong_ones(alloc)?;
    let count = refused::<Brand>(&packets, &mut sink, &mut receiver, Blank::new(1))?;
    Some((count, receiver.ending(), sink.into_bytes()))
}

#[test]
fn streams_are_opened_after_refusals(rt: HostRuntime) {
    let (count, ending, clear) = opened_after_refusals(rt.alloc()).expect(&rt, "packets");
    assert!(rt; (count, ending) == (1, Ending::Opened));
    assert!(rt; are_clear(&clear) == Some(true));
}
