/// What becomes of a clear packet.
#[derive(Clone, Copy, PartialEq, Eq)]
pub enum Kind {
    /// It is passed.
    Passed,
    /// It is on the PID of a PMT.
    Pmt,
    /// It is scrambled.
    Scrambled,
}
