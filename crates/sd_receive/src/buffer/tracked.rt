//! The packets in the buffer, and the positions to which they lead.

ghost use Rattle.std.specs.Prelude.{◌≡◌, ◌<◌, ◌^◌, ◌++◌, ◌∷◌, [], IfOk, get_or, length, map, slice_set};
ghost use Rattle.sd_packet.specs.Header.{pid_of};
ghost use Rattle.sd_packet.specs.Positions.{moved};
ghost use Rattle.sd_message.specs.EcmForm.{ArePidsAscending, ArePlaces};
ghost use Rattle.sd_receive.specs.PacketBuffer.{held_pair};
ghost use Rattle.sd_receive.specs.Tracking.{HasFirstPositions, IsTracked, AreTracksKept, ArePositionPids, packets_in};
ghost use Rattle.sd_receive.specs.declared.buffer.tracked.TheConstants.{PIDS};

use crate::buffer::MOST_HELD;
use sd_message::{MOST_PLACES, Place};
use sd_packet::{Packet, advance};
use std::alloc::{AllocError, Global};

/// The number of PIDs, which have 13 bits [ISO/IEC 13818-1, 2.4.3.2].
pub const PIDS: usize = 8192;

// The position of a PID before its first packet.
const FIRST_POSITION: u64 = 15;

/// A packet that is buffered.
#[derive(Clone, Copy)]
pub struct HeldPacket {
    /// The number of the packet in the stream, from 0.
    pub number: u64,
    /// The position of the packet's PID, with this packet.
    pub position: u64,
    /// The packet as it arrived.
    pub packet: Packet,
}

/// The packets buffered after a control message, and the positions that they lead to from those in the message.
#[derive(Drop)]
pub struct TrackedPackets {
    /// The PIDs and positions in the message.
    pub places: Vec<Place>,
    /// The buffered packets, in the order in which they arrived.
    pub held: Vec<HeldPacket>,
    /// The position of each PID after the buffered packets.
    pub table: Vec<u64>,
}

impl TrackedPackets {
    /// No place and no packet. All memory is allocated here.
    pub fn new(alloc: Global) -> Result<TrackedPackets, AllocError>
        ensures { IfOk result (λ tracks. AreTracksKept tracks) }
    {
        let places = Vec::with_capacity(alloc, MOST_PLACES)?;
        let held = Vec::with_capacity(alloc, MOST_HELD)?;
        let mut table = Vec::new(alloc);
        table.resize(PIDS, FIRST_POSITION)?;
        Ok(TrackedPackets {
            places,
            held,
            table,
        })
    }

    /// Drops the buffered packets and the places.
    pub fn reset(&mut self)
        requires { AreTracksKept self.old }
        ensures kept { AreTracksKept self.new }
        ensures places { self.new.places.items ≡ [] }
        ensures held { self.new.held.items ≡ [] }
    {
        reset_table(&mut self.table, &self.places, &self.held);
        self.places.clear();
        self.held.clear();
    }

    /// Drops the buffered packets, and begins again at these places.
    pub fn open(&mut self, places: &[Place])
        requires kept { AreTracksKept self.old }
        requires places { ArePlaces places.now }
        ensures kept { AreTracksKept self.new }
        ensures places { self.new.places.items ≡ places.now }
        ensures held { self.new.held.items ≡ [] }
    {
        self.reset();
        start(&mut self.table, places);
        self.places.extend_from_slice(places).unwrap();
    }

    /// Buffers one packet more, which has this number in the stream.
    pub fn hold(&mut self, number: u64, packet: &Packet)
        requires kept { AreTracksKept self.old }
        requires room { length self.old.held.items < MOST_HELD }
        ensures kept { AreTracksKept self.new }
        ensures places { self.new.places.items ≡ self.old.places.items }
        ensures held { map held_pair self.new.held.items
            ≡ map held_pair self.old.held.items ++ (number, packet.now) ∷ [] }
    {
        let position = step(&mut self.table, packet);
        let held = HeldPacket {
            number,
            position,
            packet: *packet,
        };
        self.held.push(held).unwrap();
    }
}

// Puts the positions of these places into a table of first positions.
fn start(table: &mut [u64], places: &[Place])
    requires clear { HasFirstPositions table.old }
    requires known { ArePositionPids places.now }
    requires ascending { ArePidsAscending places.now }
    ensures { IsTracked places.now [] table.new }
{
    for place in places {
        table[usize::from(place.pid)] = place.position;
    }
}

// Moves the position of a packet's PID by the packet, and returns it.
fn step(table: &mut [u64], packet: &Packet) -> u64
    requires long { length table.old ≡ PIDS }
    requires low { get_or table.old (pid_of packet.now) 0 < 2 ^ 63 }
    ensures value { result ≡ moved (pid_of packet.now) (get_or table.old (pid_of packet.now) 0) packet.now }
    ensures table { table.new ≡ slice_set table.old (pid_of packet.now) result }
{
    let pid = usize::from(packet.pid());
    if !packet.payload().is_empty() {
        table[pid] = advance(table[pid], packet.counter());
    }
    table[pid]
}

// Sets the PIDs of the places and packets that a table is built from back to the first position.
fn reset_table(table: &mut [u64], places: &[Place], held: &[HeldPacket])
    requires tracked { IsTracked places.now (packets_in held.now) table.old }
    requires known { ArePositionPids places.now }
    ensures { HasFirstPositions table.new }
{
    for place in places {
        table[usize::from(place.pid)] = FIRST_POSITION;
    }
    for one in held {
        table[usize::from(one.packet.pid())] = FIRST_POSITION;
    }
}
