use std::alloc::Allocator;
use std::fmt::Display;
use std::fs::{Files, Metadata, OpenFile, OpenOptions};
use std::io;
use std::io::{Error, ErrorKind, Read, Seek, SeekFrom, Write};

/// What goes wrong with files.
#[derive(Clone, Copy, PartialEq, Eq)]
pub(crate) enum Trouble {
    None,
    /// A signal interrupts the first call of a file, and the second moves one byte.
    Signals,
    /// The first call of a file fails.
    Failure,
    /// No file is cut off.
    Uncut,
}

/// A machine with trouble, whose standard output is the file of this name.
#[derive(Drop)]
pub(crate) struct Machine<'a, R> {
    pub(crate) rt: &'a R,
    pub(crate) output: &'a str,
    pub(crate) trouble: Trouble,
}

/// A file with trouble.
#[derive(Drop)]
pub(crate) struct TroubledFile<F> {
    file: F,
    trouble: Trouble,
    calls: u64,
}

impl<F> TroubledFile<F> {
    /// How many bytes of this many the next call moves.
    fn next(&mut self, count: usize) -> io::Result<usize> {
        self.calls = self.calls.saturating_add(1);
        match (self.trouble, self.calls) {
            (Trouble::Signals, 1) => Err(Error::from(ErrorKind::Interrupted)),
            (Trouble::Signals, 2) => Ok(count.min(1)),
            (Trouble::Failure, 1) => Err(Error::from(ErrorKind::Other)),
            _ => Ok(count),
        }
    }
}

impl<F: Read> Read for TroubledFile<F> {
    fn read(&mut self, buf: &mut [u8]) -> io::Result<usize> {
        let count = self.next(buf.len())?.min(buf.len());
        self.file.read(&mut buf[..count])
    }
}

impl<F: Write> Write for TroubledFile<F> {
    fn write(&mut self, buf: &[u8]) -> io::Result<usize> {
        let count = self.next(buf.len())?.min(buf.len());
        self.file.write(&buf[..count])
    }

    fn flush(&mut self) -> io::Result<()> {
        Ok(())
    }
}

impl<F: Seek> Seek for TroubledFile<F> {
    fn seek(&mut self, to: SeekFrom) -> io::Result<u64> {
        self.file.seek(to)
    }
}

impl<F: OpenFile> OpenFile for TroubledFile<F> {
    fn metadata(&self) -> io::Result<Metadata> {
        self.file.metadata()
    }

    fn set_len(&self, size: u64) -> io::Result<()> {
        if self.trouble == Trouble::Uncut {
            return Err(Error::from(ErrorKind::Other));
        }
        self.file.set_len(size)
    }

    fn sync_all(&self) -> io::Result<()> {
        self.file.sync_all()
    }

    fn sync_data(&self) -> io::Result<()> {
        self.file.sync_data()
    }
}

impl<R: Files> Files for Machine<'_, R> {
    type File = TroubledFile<R::File>;

    type Dir = R::Dir;

    fn open_file(&self, how: &OpenOptions, path: &str) -> io::Result<TroubledFile<R::File>> {
        Ok(TroubledFile {
            file: self.rt.open_file(how, path)?,
            trouble: self.trouble,
            calls: 0,
        })
    }

    fn open_dir(&self, path: &str) -> io::Result<R::Dir> {
        self.rt.open_dir(path)
    }

    fn metadata(&self, path: &str) -> io::Result<Metadata> {
        let is_output = path == "/dev/stdout";
        self.rt.metadata(if is_output { self.output } else { path })
    }

    fn symlink_metadata(&self, path: &str) -> io::Result<Metadata> {
        self.rt.symlink_metadata(path)
    }

    fn copy(&self, from: &str, to: &str) -> io::Result<u64> {
        self.rt.copy(from, to)
    }

    fn rename(&self, from: &str, to: &str) -> io::Result<()> {
        self.rt.rename(from, to)
    }

    fn remove_file(&self, path: &str) -> io::Result<()> {
        self.rt.remove_file(path)
    }

    fn create_dir(&self, path: &str) -> io::Result<()> {
        self.rt.create_dir(path)
    }

    fn remove_dir(&self, path: &str) -> io::Result<()> {
        self.rt.remove_dir(path)
    }

    fn remove_dir_all<B: Allocator>(&self, alloc: B, path: &str) -> io::Result<()> {
        self.rt.remove_dir_all(alloc, path)
    }
}

impl<R: Files> Print for Machine<'_, R> {
    fn print<D: Display + Drop>(&self, _value: D) -> io::Result<()> {
        Err(Error::from(ErrorKind::Unsupported))
    }

    fn println<D: Display + Drop>(&self, _value: D) -> io::Result<()> {
        Err(Error::from(ErrorKind::Unsupported))
    }

    /// Written behind what the file has.
    fn write_all(&self, bytes: &[u8]) -> io::Result<()> {
        let mut file = OpenOptions::new().append(true).open(self.rt, self.output)?;
        file.write_all(bytes)
    }
}
