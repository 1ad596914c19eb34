/// What the machine said of a file at an I/O error.
#[derive(Clone, Copy, PartialEq, Eq)]
pub enum Trouble {
    /// No space is left on the device, or a quota of it is used up.
    NoSpace,
    /// Permission is denied.
    Denied,
    /// It is a folder.
    Folder,
    /// It is one of the inputs, by another path.
    Input,
    /// The reader of the pipe is gone.
    Gone,
    /// Its file system is read-only.
    ReadOnly,
    /// The file is longer than the machine, or a limit of the process, allows.
    TooLarge,
    /// Its links go round in a loop, or its name is too long.
    Loop,
    /// Anything else.
    Other,
}
