/// What the lines of a site file after the eighth say, or what stands for those that are left out.
#[derive(Clone, Copy)]
pub(crate) struct Optional {
    /// The version of the ECMs.
    pub(crate) messages: u32,
    /// The number of the first control word.
    pub(crate) first_word: u32,
    /// The greatest number of a control word.
    pub(crate) last_word: u32,
    /// The number of the first period.
    pub(crate) first_period: u32,
}
