ghost use Rattle.std.specs.Prelude.{◌≡◌, ◌+◌, ◌≤◌, ◌++◌, [], length};

use arrayvec::ArrayVec;
use std::marker::Model;

/// The body of a message's section while it is built: at most 171 bytes, which with header, CRC and pointer
/// fill a packet.
#[derive(Drop)]
pub struct Body {
    bytes: ArrayVec<u8, 171>,
}

impl Model for Body {
    ghost use Rattle.std.specs.Prelude.{ℕ, List};

    ghost Value = { List ℕ };

    ghost view = { λ body. body.bytes.items };
}

impl Body {
    /// An empty body.
    pub fn new() -> Body
        ensures { result ≡ [] }
    {
        Body {
            bytes: ArrayVec::new(),
        }
    }

    /// Puts these bytes after the others.
    pub fn put(&mut self, piece: &[u8])
        requires { length self.old + length piece.now ≤ 171 }
        ensures { self.new ≡ self.old ++ piece.now }
    {
        self.bytes.try_extend_from_slice(piece).unwrap();
    }

    /// The bytes.
    pub fn bytes(&self) -> &[u8]
        ensures { result.now ≡ self.now }
    {
        &self.bytes
    }
}
