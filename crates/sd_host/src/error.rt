ghost use Rattle.std.specs.declared.io.ErrorKind.{ErrorKind};
ghost use Rattle.std.specs.Prelude.{◌≡◌, Some, None, IfSome, string_bytes};

use std::alloc::Global;
use std::io::ErrorKind;

/// What the machine said of a file.
#[derive(Drop)]
pub struct FileError {
    /// The file's name, as it was opened.
    pub(crate) name: String,
    /// The kind of error.
    pub(crate) kind: ErrorKind,
}

impl FileError {
    /// This of the file of that name; `None` if there is no memory for the name.
    pub(crate) fn of(alloc: Global, name: &str, kind: ErrorKind) -> Option<FileError>
        ensures { IfSome result (λ error. (string_bytes error.name ≡ name.now) × (error.kind ≡ kind)) }
    {
        match String::from_str(alloc, name) {
            Ok(name) => Some(FileError { name, kind }),
            Err(_) => None,
        }
    }

    /// This of the file of that name, if there is an error, else the one before.
    pub(crate) fn or_before(
        alloc: Global,
        name: &str,
        kind: Option<ErrorKind>,
        before: Option<FileError>,
    ) -> Option<FileError>
        ensures none { kind ≡ None → result ≡ before }
        ensures some { (k : ErrorKind) → kind ≡ Some k →
            IfSome result (λ error. (string_bytes error.name ≡ name.now) × (error.kind ≡ k)) }
    {
        match kind {
            Some(kind) => FileError::of(alloc, name, kind),
            None => before,
        }
    }
}
