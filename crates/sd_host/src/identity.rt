ghost use Rattle.std.specs.Prelude.{◌≡◌, ◌↔◌, ◌⊎◌, ◌<◌, ◌++◌, ◌∷◌, [], if◌then◌else◌, bit_and, IsTrue, IsErr, IfOk};
ghost use Rattle.std.specs.Prelude.{OnOk, OnErr};
ghost use Rattle.std.specs.Prelude.{vec_capacity, vec_len};
ghost use Rattle.std.specs.Fs.{metadata_mode};
ghost use Rattle.sd_host.specs.Folder.{folder_in};
ghost use Rattle.sd_host.specs.Kept.{made_in, KeepsWrites, IsOutput, MayMake, MayRead, output_of, with_identity};

use std::fs::{Files, Metadata, OpenFile, OpenOptions};
use std::io::{Error, ErrorKind};
use std::os::unix::fs::{MetadataExt, OpenOptionsExt};
use std::path::Path;
use std::{fs, io};

/// The bits of a mode that tell the kind of file.
const KIND: u32 = 0o170000;

/// Who may read and write a file that is made: its owner alone, or whom the process's mask of modes leaves.
const PRIVATE: u32 = 0o600;

const SHARED: u32 = 0o666;

/// The kind of error of a file that is one of the inputs, or the standard output, by another path. No error of the
/// machine's own has it.
pub const SAME_FILE: ErrorKind = ErrorKind::Other;

/// The path of the current folder.
const CURRENT: &str = ".";

/// The path of the standard output.
const OUTPUT: &str = "/dev/stdout";

/// The type of a file, as far as it decides how the file is opened and compared.
#[derive(Clone, Copy, PartialEq, Eq)]
pub enum Kind {
    /// A regular file.
    Regular,
    /// A block device.
    Block,
    /// A pipe or a socket.
    Stream,
    /// Any other file: a folder, a terminal or another character device.
    Other,
}

impl Kind {
    /// The kind of file, by its mode.
    fn of(metadata: &Metadata) -> Kind
        ensures regular { result ≡ Kind.Regular ↔ bit_and (metadata_mode metadata.now) 0o170000 ≡ 0o100000 }
        ensures block { result ≡ Kind.Block ↔ bit_and (metadata_mode metadata.now) 0o170000 ≡ 0o060000 }
        ensures stream { result ≡ Kind.Stream ↔ (bit_and (metadata_mode metadata.now) 0o170000 ≡ 0o010000)
            ⊎ (bit_and (metadata_mode metadata.now) 0o170000 ≡ 0o140000) }
    {
        match metadata.mode() & KIND {
            0o100000 => Kind::Regular,
            0o060000 => Kind::Block,
            0o010000 | 0o140000 => Kind::Stream,
            _ => Kind::Other,
        }
    }

    /// Whether a file of this kind keeps what is written, so that an input of this kind must never be an output.
    fn is_kept(self) -> bool
        ensures { IsTrue result ↔ KeepsWrites self }
    {
        self == Kind::Regular || self == Kind::Block
    }
}

/// Which file of the machine it is, by whatever path it was opened.
#[derive(Clone, Copy, PartialEq, Eq)]
pub struct Identity {
    device: u64,
    inode: u64,
}

impl Identity {
    /// The file that has these. No clause can say which device and which inode number a file of the machine has.
    pub fn of<M: MetadataExt>(metadata: &M) -> Identity {
        Identity::new(metadata.dev(), metadata.ino())
    }

    /// The file of this inode number on this device.
    fn new(device: u64, inode: u64) -> Identity
        ensures device { result.device ≡ device }
        ensures inode { result.inode ≡ inode }
    {
        Identity { device, inode }
    }
}

/// The standard output, as far as it decides which files are it.
#[derive(Clone, Copy, PartialEq, Eq)]
pub enum Output {
    /// This regular file.
    File(Identity),
    /// This pipe or socket.
    Pipe(Identity),
    /// Another kind of file, such as a terminal or `/dev/null`. No file is taken for it.
    Other,
    /// It can't be looked at, so no file can be compared with it.
    Unknown,
}

impl Output {
    /// The standard output that is this file, of this kind.
    pub fn of(kind: Kind, file: Identity) -> Output
        ensures { result ≡ output_of kind file }
    {
        match kind {
            Kind::Regular => Output::File(file),
            Kind::Stream => Output::Pipe(file),
            Kind::Block | Kind::Other => Output::Other,
        }
    }

    /// Whether it is this file.
    pub fn is(self, file: Identity) -> bool
        ensures { IsTrue result ↔ IsOutput self file }
    {
        match self {
            Output::File(output) | Output::Pipe(output) => output == file,
            Output::Other | Output::Unknown => false,
        }
    }
}

/// The standard output, by a look at it.
pub fn standard_output<R: Files>(files: &R) -> Output
    ensures { (result ≡ Output.Unknown) ⊎ ((kind : Kind) × (file : Identity) × (result ≡ output_of kind file)) }
{
    match fs::metadata(files, OUTPUT) {
        Ok(metadata) => Output::of(Kind::of(&metadata), Identity::of(&metadata)),
        Err(_) => Output::Unknown,
    }
}

/// Whether the file of that name is the standard output.
pub fn is_output<R: Files>(files: &R, output: Output, name: &str) -> bool
    ensures { IsTrue result → (file : Identity) × IsOutput output file }
{
    match fs::metadata(files, name) {
        Ok(metadata) => output.is(Identity::of(&metadata)),
        Err(_) => false,
    }
}

/// Opens a file for reading, and adds it to the inputs.
pub fn open<R: Files>(
    files: &R,
    inputs: &mut Vec<Identity>,
    output: Output,
    name: &str,
) -> io::Result<R::File>
    ensures ok { OnOk result ((kind : Kind) × (file : Identity) × MayRead output kind file
        × (inputs.new.items ≡ with_identity inputs.old.items kind file)) }
    ensures unchanged { OnErr result (inputs.new.items ≡ inputs.old.items) }
{
    let file = fs::open(files, name)?;
    let metadata = file.metadata()?;
    add_input(inputs, output, Kind::of(&metadata), Identity::of(&metadata))?;
    Ok(file)
}

/// Adds a file to the inputs if it keeps what is written. A regular file that is the standard output is refused: it
/// would grow while it is read.
pub fn add_input(
    inputs: &mut Vec<Identity>,
    output: Output,
    kind: Kind,
    file: Identity,
) -> io::Result<()>
    ensures ok { OnOk result (MayRead output kind file
        × (inputs.new.items ≡ with_identity inputs.old.items kind file)) }
    ensures refused { ¬ MayRead output kind file → IsErr result }
    ensures unchanged { OnErr result (inputs.new.items ≡ inputs.old.items) }
{
    if !may_read(output, kind, file) {
        return Err(Error::from(SAME_FILE));
    }
    if kind.is_kept() && inputs.push(file).is_err() {
        return Err(Error::from(ErrorKind::OutOfMemory));
    }
    Ok(())
}

/// Whether a file may be read: it is no regular file that is the standard output.
pub fn may_read(output: Output, kind: Kind, file: Identity) -> bool
    ensures { IsTrue result ↔ MayRead output kind file }
{
    kind != Kind::Regular || !output.is(file)
}

/// Opens a file for writing, and makes it if it isn't there; a private one is its owner's alone. A regular file is cut
/// off; a pipe or a device stays as it is. A file that is one of the inputs is refused, before anything of it changes.
/// The kind of the file is returned too.
pub fn create<R: Files>(
    files: &R,
    inputs: &[Identity],
    private: bool,
    name: &str,
) -> io::Result<(R::File, Kind)>
    ensures { IfOk result (λ made. (file : Identity) × MayMake inputs.now made.1 file) }
{
    let file = OpenOptions::new()
        .write(true)
        .create(true)
        .mode(mode_of(private))
        .open(files, name)?;
    let metadata = file.metadata()?;
    let kind = Kind::of(&metadata);
    spare_inputs(inputs, kind, Identity::of(&metadata))?;
    if kind == Kind::Regular {
        file.set_len(0)?;
    }
    Ok((file, kind))
}

/// Makes a file that is new, and opens it for writing; a private one is its owner's alone. It is added to the inputs,
/// so
/// that nothing else is made over it. `None` is a name that is there already.
pub fn create_new<R: Files>(
    files: &R,
    inputs: &mut Vec<Identity>,
    private: bool,
    name: &str,
) -> io::Result<Option<R::File>>
    requires room { vec_len inputs.old < vec_capacity inputs.old }
    ensures made { OnOk (made_in result) ((file : Identity) × (inputs.new.items ≡ inputs.old.items ++ file ∷ [])) }
    ensures unchanged { OnErr (made_in result) (inputs.new.items ≡ inputs.old.items) }
{
    let made = OpenOptions::new()
        .write(true)
        .create_new(true)
        .mode(mode_of(private))
        .open(files, name);
    match made {
        Ok(file) => {
            let metadata = file.metadata()?;
            inputs.push(Identity::of(&metadata)).unwrap();
            Ok(Some(file))
        }
        Err(error) if error.kind() == ErrorKind::AlreadyExists => Ok(None),
        Err(error) => Err(error),
    }
}

/// Brings a folder's names to the disk.
pub fn sync_folder<R: Files>(files: &R, folder: &str) -> io::Result<()> {
    fs::open(files, folder)?.sync_all()
}

/// The folder of the file of that name.
pub fn folder_of(name: &str) -> &str
    ensures { result.now ≡ folder_in name.now }
{
    match Path::new(name).parent() {
        Some(folder) if !folder.as_str().is_empty() => folder.as_str(),
        _ => CURRENT,
    }
}

/// Who may read and write a file that is made.
fn mode_of(private: bool) -> u32
    ensures { result ≡ (if private then 0o600 else 0o666) }
{
    if private { PRIVATE } else { SHARED }
}

/// Refuses a file that is one of the inputs that keep what is written.
pub fn spare_inputs(inputs: &[Identity], kind: Kind, file: Identity) -> io::Result<()>
    ensures ok { OnOk result (MayMake inputs.now kind file) }
    ensures refused { OnErr result (¬ MayMake inputs.now kind file) }
{
    if may_make(inputs, kind, file) {
        Ok(())
    } else {
        Err(Error::from(SAME_FILE))
    }
}

/// Whether a file may be made: it is none of the inputs that keep what is written.
pub fn may_make(inputs: &[Identity], kind: Kind, file: Identity) -> bool
    ensures { IsTrue result ↔ MayMake inputs.now kind file }
{
    !(kind.is_kept() && inputs.contains(&file))
}
