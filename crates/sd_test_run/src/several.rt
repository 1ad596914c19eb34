use crate::changes::PACKET;
use crate::session::{file, shelf};
use sd_ports_memory::MemDepot;
use sd_test_texts::site_start;
use std::alloc::{AllocError, Global};

/// A site with a message before each 20th packet, and these lines after its others.
macro_rules! twenty {
    ($($lines:literal),*) => {
        site_start!("ecm-every 20\ncrypto-ecms 2\nperiod-cryptos 1\n", $($lines),*)
    };
}

/// The packets of the sample's two elementary streams.
fn elementary(alloc: Global, stream: &[u8]) -> Result<Vec<[u8; PACKET]>, AllocError> {
    let mut found = Vec::new(alloc);
    for packet in stream.chunks_exact(PACKET) {
        let Some(packet) = packet.first_chunk::<PACKET>() else {
            continue;
        };
        if packet[1] & 0x1F == 1 && packet[2] < 0xF0 {
            found.push(*packet)?;
        }
    }
    Ok(found)
}

/// A clear stream and its broadcast.
#[derive(Drop)]
pub(crate) struct Run {
    clear: Vec<[u8; PACKET]>,
    sent: Vec<[u8; PACKET]>,
}

/// The run of which these are the files.
pub(crate) fn run_of(
    alloc: Global,
    depot: &MemDepot,
    clear: &str,
    sent: &str,
) -> Result<Run, AllocError> {
    Ok(Run {
        clear: elementary(alloc, &file(alloc, depot, clear)?)?,
        sent: elementary(alloc, &file(alloc, depot, sent)?)?,
    })
}

fn broadcast_of(alloc: Global, site: &str, commands: &str) -> Result<Run, AllocError> {
    let depot = shelf(alloc, site, "", "", commands)?;
    run_of(alloc, &depot, "clear", "broadcast")
}

/// How many packets have in two broadcasts the XOR of the clear ones.
pub(crate) fn two_time_pads(one: &Run, two: &Run) -> Option<usize> {
    let mut count = 0usize;
    for k in 0..one.sent.len() {
        let (a, b) = (one.sent.get(k)?, two.sent.get(k)?);
        let (x, y) = (one.clear.get(k)?, two.clear.get(k)?);
        let mut is_same = true;
        for i in 4..PACKET {
            is_same = is_same && a[i] ^ b[i] == x[i] ^ y[i];
        }
        if is_same {
            count = count.saturating_add(1);
        }
    }
    Some(count)
}

const SEVENTH: &str = "sample 7 60 clear\nhead site book clear broadcast\n";

const EIGHTH: &str = "sample 8 60 clear\nhead site book clear broadcast\n";

#[test]
fn words_of_their_own_keep_keystreams_apart(rt: HostRuntime) -> Result<(), AllocError> {
    let alloc = rt.alloc();
    let first = broadcast_of(alloc, twenty!(), SEVENTH)?;
    let again = broadcast_of(alloc, twenty!(), EIGHTH)?;
    let apart = broadcast_of(alloc, twenty!("messages 1\nfirst-word 2\n"), EIGHTH)?;
    assert!(rt; first.sent.len() == 57 && two_time_pads(&first, &again) == Some(57));
    assert!(rt; two_time_pads(&first, &apart) == Some(0));
    Ok(())
}
