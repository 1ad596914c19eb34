ghost use Rattle.std.specs.Prelude.{◌≡◌};
ghost use Rattle.sd_section.specs.OneMore.{holds_of, has_section as is_section_of};

/// What an assembler's buffer holds.
#[derive(Clone, Copy)]
pub enum Holds {
    /// A partial section, or nothing.
    Making,
    /// A whole section, which is still to be lent.
    Section,
    /// One that was lent.
    Lent,
}

impl Holds {
    /// What a buffer holds to which bytes were added.
    pub fn of(whole: bool) -> Holds
        ensures { result ≡ holds_of whole }
    {
        if whole { Holds::Section } else { Holds::Making }
    }

    /// Whether that is a whole section, which is still to be lent.
    pub fn is_section(self) -> bool
        ensures { result ≡ is_section_of self }
    {
        match self {
            Holds::Section => true,
            Holds::Making | Holds::Lent => false,
        }
    }
}
