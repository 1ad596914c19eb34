//! What a layer card's file begins with [this project, docs/FORMATS.md, Layer card].

/// The bytes that a layer card's file begins with.
pub const MAGIC: [u8; 4] = [b'S', b'D', b'L', b'C'];

/// The version of the file.
pub const VERSION: u8 = 1;
