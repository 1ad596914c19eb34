ghost use Rattle.std.specs.Prelude.{◌≡◌, ◌<◌};
ghost use Rattle.sd_watch.specs.Watching.{IsWatcherReady};

use crate::packets::{ALL, beginning};
use crate::receive::{PACKETS, are_clear, card, wrong};
use sd_base::Steps;
use sd_packet::Packet;
use sd_ports::MemSink;
use sd_spec::{Ending, Report};
use sd_watch::Watcher;
use std::alloc::Global;
use std::marker::Brand;
use std::sync::ledger::{Blank, Ledger};

// The packets of the stream, each twice. Before the section comes one like it whose check value is another, and one
// that is marked.
fn damaged(alloc: Global) -> Option<Vec<Packet>> {
    let mut packets = Vec::new(alloc);
    for text in PACKETS {
        let bytes = beginning(text)?;
        if text == ALL {
            packets.push(wrong(bytes)?).ok()?;
            packets.push(marked(bytes)?).ok()?;
        }
        packets.push(Packet::new(bytes)?).ok()?;
        packets.push(Packet::new(bytes)?).ok()?;
    }
    Some(packets)
}

// The packet with its transport_error_indicator set.
fn marked(bytes: [u8; 188]) -> Option<Packet> {
    let mut bytes = bytes;
    bytes[1] |= 0x80;
    Packet::new(bytes)
}

// What is reported on these packets, of which none turns to another run.
fn watched<L: Ledger>(
    packets: &[Packet],
    sink: &mut MemSink,
    watcher: &mut Watcher,
    blank: Blank,
) -> Option<Report>
    requires name { blank.name ≡ L.name }
    requires parts { blank.parts ≡ L.parts }
    requires some { 0 < blank.parts }
    requires ready { IsWatcherReady watcher.old }
{
    let mut steps = Steps::<L>::new(blank);
    for packet in packets {
        match watcher.watch(packet, sink, &mut steps) {
            Ok(None) => {}
            _ => return None,
        }
    }
    Some(watcher.report())
}

// What is reported on the packets and what is written of them.
fn damaged_report(alloc: Global) -> Option<(Report, Vec<u8>)> {
    let packets = damaged(alloc)?;
    let mut sink = MemSink::new(alloc, 1000, 1000, Vec::new(alloc)).ok()?;
    match Watcher::new(alloc, card(alloc)?) {
        Ok(mut watcher) => {
            let report = watched::<Brand>(&packets, &mut sink, &mut watcher, Blank::new(1))?;
            Some((report, sink.into_bytes()))
        }
        Err(_) => None,
    }
}

#[test]
fn damaged_streams_are_opened(rt: HostRuntime) {
    let (report, clear) = damaged_report(rt.alloc()).expect(&rt, "a report");
    let tally = report.tally;
    assert!(rt; (tally.marked, tally.doubled, tally.odd, tally.refused) == (1, 4, 0, 1));
    assert!(rt; tally.first.expect(&rt, "a fault").packet() == 2);
    assert!(rt; (report.packets, report.written, report.run) == (18, 4, Some(None)));
    assert!(rt; report.ending == Ending::Opened);
    assert!(rt; are_clear(&clear) == Some(true));
}
