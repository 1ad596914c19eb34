//! Control words: how an ECM gives one, and which packets can be under it.

ghost use Rattle.std.specs.Prelude.{◌≡◌, ◌+◌, ◌%◌, [], None, Some, MatchResult};
ghost use Rattle.sd_message.specs.EcmParts.{message_of};
ghost use Rattle.sd_spec.specs.Offered.{word_fault};
ghost use Rattle.sd_spec.specs.Confirmed.{is_foreign_under};
ghost use Rattle.sd_receive.specs.Buffered.{word_under};

use sd_cipher::unwrap_checked;
use sd_message::{EcmHead, StreamFault};
use sd_packet::Packet;

/// A control word and its number.
#[derive(Clone, Copy)]
pub struct ControlWord {
    /// The number of the control word.
    pub number: u32,
    /// The control word.
    pub bytes: [u8; 32],
}

/// The control word of a complete message, under the key of its period if that is known. `WrongWord` if its check value
/// isn't the one in the message; `number` is the packet that completes it.
pub fn word_of(
    number: u64,
    head: &EcmHead,
    key: Option<[u8; 32]>,
) -> Result<Option<[u8; 32]>, StreamFault>
    ensures { MatchResult result
        (λ word. (word ≡ word_under (message_of head.now []) key) ×
        (word_fault number (message_of head.now []) key ≡ None))
        (λ fault. word_fault number (message_of head.now []) key ≡ Some fault) }
{
    let Some(key) = key else {
        return Ok(None);
    };
    match unwrap_checked(&key, u64::from(head.word), &head.wrapped, &head.check) {
        Ok(word) => Ok(Some(word)),
        Err(found) => Err(StreamFault::WrongWord {
            packet: number,
            word: head.word,
            found,
            due: head.check,
        }),
    }
}

/// The transport_scrambling_control of a packet under the control word of this number: 2 if it is even, 3 if it
/// is odd.
pub fn control_of(number: u32) -> u8
    ensures { result ≡ 2 + number % 2 }
{
    0b10 + (number % 2) as u8
}

/// Whether a packet can't be one under the control word of this number [this project, docs/FORMATS.md, Receiver].
pub fn is_foreign(word: u32, packet: &Packet) -> bool
    ensures { result ≡ is_foreign_under word packet.now }
{
    packet.scrambling() != control_of(word) || !packet.is_placed()
}
