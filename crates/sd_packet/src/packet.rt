ghost use Rattle.std.specs.Prelude.{◌≡◌, ◌≢◌, ◌-◌, ◌<◌, ◌≤◌, ◌↔◌, ◌++◌, IsTrue, IsNone, IfSome, length, slice_index};
ghost use Rattle.std.specs.Prelude.{take};
ghost use Rattle.sd_packet.specs.Header.{unit_start_of, pid_of, scrambling_of, adaptation_of, counter_of};
ghost use Rattle.sd_packet.specs.Header.{payload_start_of, payload_of, controlled};
ghost use Rattle.sd_packet.specs.Positions.{is_placed as is_placed_packet};

use crate::position::is_positional;
use crate::section::put;
use sd_base::fields;
use std::marker::Model;

/// How many bytes a transport packet has (ISO/IEC 13818-1, 2.4.3.2).
pub const SIZE: usize = 188;

const SYNC_BYTE: u8 = 0x47;

/// A transport packet: 188 bytes, the first of which is the sync byte (ISO/IEC 13818-1, 2.4.3.2).
#[derive(Clone, Copy, PartialEq, Eq)]
pub struct Packet {
    pub(crate) bytes: [u8; SIZE],
}

impl Model for Packet {
    ghost use Rattle.std.specs.Prelude.{ℕ, List, ◌≡◌, slice_index};

    ghost Value = { List ℕ };

    ghost view = { λ packet. packet.bytes };

    ghost invariant = { λ packet. slice_index packet.bytes 0 ≡ 0x47 };

    ghost inverse = { λ bytes. record { bytes = bytes } };
}

impl Packet {
    /// The packet of these bytes, or `None` where the first is no sync byte.
    pub fn new(bytes: [u8; SIZE]) -> Option<Packet>
        ensures none { IsNone result ↔ (slice_index bytes 0 ≢ 0x47) }
        ensures value { IfSome result (λ packet. packet ≡ bytes) }
    {
        if bytes[0] == SYNC_BYTE {
            Some(Packet { bytes })
        } else {
            None
        }
    }

    /// The packet's bytes.
    pub fn bytes(&self) -> &[u8; SIZE]
        ensures value { result.now ≡ self.now }
        ensures length { length self.now ≡ 188 }
        ensures sync { slice_index self.now 0 ≡ 0x47 }
    {
        &self.bytes
    }

    /// The PID, of 13 bits.
    pub fn pid(&self) -> u16
        ensures value { result ≡ pid_of self.now }
        ensures fits { result < 8192 }
    {
        fields! { &self.bytes; pid: 11, 13; }
        pid as u16
    }

    /// Whether payload_unit_start_indicator is set.
    pub fn unit_start(&self) -> bool
        ensures { IsTrue result ↔ (unit_start_of self.now ≡ 1) }
    {
        fields! { &self.bytes; payload_unit_start_indicator: 9, 1; }
        payload_unit_start_indicator == 1
    }

    /// transport_scrambling_control, of two bits.
    pub fn scrambling(&self) -> u8
        ensures value { result ≡ scrambling_of self.now }
        ensures fits { result < 4 }
    {
        fields! { &self.bytes; transport_scrambling_control: 24, 2; }
        transport_scrambling_control as u8
    }

    /// adaptation_field_control, of two bits: 01 is payload alone, 10 an adaptation field alone, 11 both.
    pub fn adaptation(&self) -> u8
        ensures value { result ≡ adaptation_of self.now }
        ensures fits { result < 4 }
    {
        fields! { &self.bytes; adaptation_field_control: 26, 2; }
        adaptation_field_control as u8
    }

    /// continuity_counter, of four bits.
    pub fn counter(&self) -> u8
        ensures value { result ≡ counter_of self.now }
        ensures fits { result < 16 }
    {
        fields! { &self.bytes; continuity_counter: 28, 4; }
        continuity_counter as u8
    }

    /// Where the payload starts: 188 where there is none.
    #[tactic(auto, unfolding(crate::specs::Header::payload_start_of))]
    pub fn payload_start(&self) -> usize
        ensures value { result ≡ payload_start_of self.now }
        ensures low { 4 ≤ result }
        ensures high { result ≤ 188 }
    {
        let length = self.bytes[4];
        match self.adaptation() {
            0b01 => 4,
            0b11 if length <= 182 => 5 + usize::from(length),
            _ => SIZE,
        }
    }

    /// Whether the packet has a position: its PID is one of those that have, and its payload is not empty.
    pub fn is_placed(&self) -> bool
        ensures { result ≡ is_placed_packet self.now }
    {
        is_positional(self.pid()) && self.payload_start() < SIZE
    }

    /// The payload, which may be empty.
    pub fn payload(&self) -> &[u8]
        ensures value { result.now ≡ payload_of self.now }
        ensures length { length result.now ≡ 188 - payload_start_of self.now }
    {
        &self.bytes[self.payload_start()..]
    }

    /// Sets transport_scrambling_control, of two bits.
    pub fn set_scrambling(&mut self, control: u8)
        requires { control < 4 }
        ensures value { self.new ≡ controlled self.old control }
        ensures byte { slice_index self.old 3 < 256 }
    {
        self.bytes[3] = control * 64 + self.bytes[3] % 64;
    }

    /// Puts a payload of the same length in place of the packet's.
    #[tactic(auto, using(crate::proofs::Packets::payload_put, crate::proofs::Packets::sync_stays))]
    pub fn set_payload(&mut self, payload: &[u8])
        requires { length payload.now ≡ 188 - payload_start_of self.old }
        ensures value { self.new ≡ take (payload_start_of self.old) self.old ++ payload.now }
        ensures length { length self.old ≡ 188 }
    {
        let start = self.payload_start();
        put(&mut self.bytes, start, payload);
    }
}
