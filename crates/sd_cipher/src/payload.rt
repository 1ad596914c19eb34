ghost use Rattle.std.specs.Prelude.{◌≡◌, ◌+◌, ◌*◌, ◌^◌, ◌<◌, ◌≤◌, ◌++◌, true, slice_index, take, length};
ghost use Rattle.sd_packet.specs.Header.{pid_of, scrambling_of, payload_start_of, payload_of};
ghost use Rattle.sd_packet.specs.Positions.{is_positional};
ghost use Rattle.sd_cipher.specs.Keystream.{xored};
ghost use Rattle.sd_cipher.specs.Scrambling.{packet_under_keystream, control_of, scrambled, descrambled};

use crate::{lay, payload_stream};
use sd_packet::Packet;

/// Whether the number of a control word is even or odd.
#[derive(Clone, Copy)]
pub enum Parity {
    /// The number is even.
    Even,
    /// The number is odd.
    Odd,
}

impl Parity {
    // transport_scrambling_control of a packet that is scrambled under such a word.
    fn control(self) -> u8
        ensures value { result ≡ control_of self }
        ensures fits { result < 4 }
    {
        match self {
            Parity::Even => 0b10,
            Parity::Odd => 0b11,
        }
    }
}

/// Scrambles the payload under the control word, at the packet's position, and says the word's parity in
/// transport_scrambling_control. Nothing else changes.
#[tactic(auto, using(crate::proofs::Scramblings::undone))]
pub fn scramble(packet: &mut Packet, word: &[u8; 32], position: u64, parity: Parity)
    requires positional { is_positional (pid_of packet.old) ≡ true }
    requires some { payload_start_of packet.old < 188 }
    requires clear { scrambling_of packet.old ≡ 0 }
    requires position { position < 2 ^ 48 }
    ensures value { packet.new ≡ scrambled packet.old word.now position parity }
    ensures inverse { descrambled packet.new word.now position ≡ packet.old }
{
    lay_under(packet, word, position, parity.control());
}

/// Descrambles the payload under the control word, at the packet's position, and sets transport_scrambling_control
/// to 00. Nothing else changes.
pub fn descramble(packet: &mut Packet, word: &[u8; 32], position: u64)
    requires positional { is_positional (pid_of packet.old) ≡ true }
    requires some { payload_start_of packet.old < 188 }
    requires position { position < 2 ^ 48 }
    ensures { packet.new ≡ descrambled packet.old word.now position }
{
    lay_under(packet, word, position, 0b00);
}

// Lays the keystream of the packet's PID and position over its payload and writes transport_scrambling_control.
#[tactic(auto, using(crate::proofs::Scramblings::controlled_first), unfolding(crate::specs::Scrambling::packet_under_keystream))]
fn lay_under(packet: &mut Packet, word: &[u8; 32], position: u64, control: u8)
    requires position { position < 2 ^ 48 }
    requires control { control < 4 }
    ensures value { packet.new ≡ packet_under_keystream packet.old word.now position control }
    ensures byte { slice_index packet.old 3 < 256 }
    ensures length { length packet.old ≡ 188 }
{
    let number = u64::from(packet.pid()) * (1 << 48) + position;
    lay_stream(packet, &mut payload_stream(word, number));
    packet.set_scrambling(control);
}

// Lays a stream over the packet's payload, and loses it. A payload that fills the packet is laid apart, since then the
// compiler knows its length.
#[tactic(auto, using(crate::proofs::Scramblings::swapped, crate::proofs::Scramblings::first_laid))]
fn lay_stream(packet: &mut Packet, stream: &mut [u8; 184])
    ensures value { packet.new ≡
        take (payload_start_of packet.old) packet.old ++ xored (payload_of packet.old) stream.old }
    ensures length { length packet.old ≡ 188 }
{
    let length = packet.payload().len();
    if length == stream.len() {
        lay(stream, packet.payload());
        packet.set_payload(stream);
    } else {
        lay_first(stream, packet.payload());
        packet.set_payload(&stream[..length]);
    }
}

// Lays a payload over the first bytes of a stream.
#[tactic(auto, using(crate::proofs::Scramblings::first_laid))]
fn lay_first(stream: &mut [u8; 184], payload: &[u8])
    requires { length payload.now ≤ 184 }
    ensures { take (length payload.now) stream.new ≡ xored payload.now stream.old }
{
    lay(&mut stream[..payload.len()], payload);
}
