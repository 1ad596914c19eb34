//! The places and lengths of a card's file [this project, docs/FORMATS.md, Card].

/// The bytes that a card's file begins with.
pub const MAGIC: [u8; 4] = [b'S', b'D', b'C', b'D'];

/// The version of the file.
pub const VERSION: u8 = 1;

/// The place of the version.
pub const VERSION_AT: usize = 4;

/// The place of the height.
pub const HEIGHT_AT: usize = 5;

/// The place of the leaf, a number of four bytes.
pub const LEAF_AT: usize = 6;

/// The place of the CA_system_ID, a number of two bytes.
pub const CA_AT: usize = 10;

/// The place of the first secret.
pub const SECRETS_AT: usize = 12;
