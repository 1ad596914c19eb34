/// Why bytes are no site file. Lines are counted from 1 and judged in order; the first bad line decides.
#[derive(Clone, Copy, PartialEq, Eq)]
pub enum SiteFault {
    /// The line is not in its form.
    Line(u32),
    /// The line is in its form, and its number is out of range.
    Range(u32),
    /// All lines are good, and the two PIDs are equal.
    SamePid,
    /// A line stands after thirteen good ones.
    Extra(u32),
    /// All lines that are there are good, and there are fewer than eight.
    Short,
}
