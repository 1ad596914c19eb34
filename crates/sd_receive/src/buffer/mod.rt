//! The packets that are held back after an ECM until the next one confirms them.

ghost use Rattle.std.specs.Prelude.{◌≡◌, ◌<◌, [], Some, None, IfOk, IsErrOf};
ghost use Rattle.sd_base.specs.Count.{IsCaused};
ghost use Rattle.sd_engine.specs.Stage.{sink_state_of};
ghost use Rattle.sd_message.specs.EcmForm.{AreShort, ArePlaces};
ghost use Rattle.sd_receive.specs.PacketBuffer.{held_more};
ghost use Rattle.sd_receive.specs.Writing.{WriteOutcome, wrote_of};

mod pid_set;
mod release;
mod tracked;

use crate::buffer::release::Release;
use crate::buffer::tracked::TrackedPackets;
use crate::ecm::ControlWord;
use sd_base::NoMemory;
use sd_message::Place;
use sd_packet::Packet;
use sd_ports::Sink;
use std::alloc::Global;
use std::marker::Model;

/// The most packets that a receiver buffers (holds) after a control message [this project, docs/FORMATS.md, Receiver].
pub const MOST_HELD: usize = 4096;

/// The packets that a receiver buffers after a control message [this project, docs/FORMATS.md, Receiver]. An open
/// buffer has the control word and the positions of the message, and holds at most 4,096 packets. A closed one holds
/// nothing.
#[derive(Drop)]
pub struct PacketBuffer {
    word: Option<ControlWord>,
    tracks: TrackedPackets,
}

/// Why `PacketBuffer::write` stopped.
#[derive(Clone, Copy, PartialEq, Eq)]
pub enum BufferFault {
    /// A write into the sink failed.
    Write,
    /// The buffered packet of this number in the stream isn't in the clear, and can't be one under the control word.
    Parity(u64),
}

impl Model for PacketBuffer {
    ghost use Rattle.std.specs.Prelude.{Option};
    ghost use Rattle.sd_receive.specs.PacketBuffer.{Holding, holding_of};

    ghost Value = { Option Holding };

    ghost use Rattle.sd_receive.specs.Tracking.{AreTracksKept};

    ghost view = { λ s. holding_of s.word s.tracks };

    ghost invariant = { λ s. AreTracksKept s.tracks };
}

impl PacketBuffer {
    /// A closed buffer. All memory that it needs is allocated here.
    pub fn new(alloc: Global) -> Result<PacketBuffer, NoMemory>
        ensures { IfOk result (λ buffer. buffer ≡ None) }
    {
        let tracks = TrackedPackets::new(alloc)?;
        Ok(PacketBuffer { word: None, tracks })
    }

    /// Opens the buffer after a control message: `number` and `word` are the number and the bytes of its control word,
    /// `places` its PIDs and positions. What was buffered before is dropped.
    pub fn open(&mut self, number: u32, word: [u8; 32], places: &[Place])
        requires { ArePlaces places.now }
        ensures { self.new ≡ Some (record { number = number; word = word; places = places.now; held = [] }) }
    {
        self.tracks.open(places);
        self.word = Some(ControlWord {
            number,
            bytes: word,
        });
    }

    /// Closes the buffer. What was buffered is dropped.
    pub fn reset(&mut self)
        ensures { self.new ≡ None }
    {
        self.tracks.reset();
        self.word = None;
    }

    /// Buffers a packet, which has this number in the stream, if the buffer is open. If 4,096 are buffered already,
    /// all are dropped and the buffer is closed.
    pub fn hold(&mut self, number: u64, packet: &Packet)
        ensures { self.new ≡ held_more self.old number packet.now }
    {
        if self.word.is_none() {
            return;
        }
        if self.tracks.held.len() < MOST_HELD {
            self.tracks.hold(number, packet);
        } else {
            self.reset();
        }
    }

    /// Writes what the next control message confirms of the buffered packets, in order, up to the first that is
    /// refused. `ca` is the conditional access system, `ecm` the PID of control messages, and `places` are the PIDs and
    /// positions in the next message. It returns the number of packets written: 0 if the buffer is closed.
    pub fn write<K: Sink>(
        &self,
        ca: u16,
        ecm: u16,
        places: &[Place],
        out: &mut K,
    ) -> Result<u64, BufferFault>
        requires ecm { ecm < 8192 }
        requires short { AreShort places.now }
        ensures value { WriteOutcome (wrote_of self.now ca ecm places.now)
            (sink_state_of K.Sink out.old) (sink_state_of K.Sink out.new) result }
        ensures cause { IsCaused (K.faults out.old) (K.faults out.new) (IsErrOf result BufferFault.Write) }
    {
        let Some(word) = &self.word else {
            return Ok(0);
        };
        let release = Release {
            word,
            tracks: &self.tracks,
            ca,
            ecm,
            last: places,
        };
        release.write(out)
    }
}
