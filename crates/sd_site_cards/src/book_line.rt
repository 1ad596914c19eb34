/// The most bytes that a book has.
pub const MOST_BOOK_SIZE: u32 = 33_554_432;

/// What the last line of a site file says of the site's book.
#[derive(Clone, Copy)]
pub struct BookLine {
    /// Its number of bytes.
    pub size: u32,
    /// Their SHA-256 (FIPS 180-4).
    pub digest: [u8; 32],
}
