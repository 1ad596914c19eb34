ghost use Rattle.std.specs.Prelude.{◌≤◌};

use sd_ports_memory::MemDepot;
use std::alloc::{AllocError, Global};

/// As many bytes as a file that is made has room for if nothing else is asked for, and as many as may be
/// printed at least.
pub(crate) const ROOM: usize = 120_000;

/// A site of height 3.
pub(crate) const SITE: &[u8] = b"height 3
master 000102030405060708090a0b0c0d0e0f101112131415161718191a1b1c1d1e1f
ca 1234
emm 496
ecm 497
ecm-every 200
crypto-ecms 2
period-cryptos 1
";

/// A file by its name.
#[derive(Drop)]
struct File {
    name: String,
    bytes: Vec<u8>,
}

/// The files that a run begins with.
#[derive(Drop)]
pub(crate) struct Files {
    list: Vec<File>,
    /// As many bytes as a file that is made has room for. No fewer may be printed.
    pub(crate) room: usize,
}

impl Files {
    /// The site alone, as the file S.
    pub(crate) fn new(alloc: Global) -> Result<Files, AllocError> {
        Files::with(alloc, "S", SITE)
    }

    /// One file alone.
    pub(crate) fn with(alloc: Global, name: &str, bytes: &[u8]) -> Result<Files, AllocError> {
        let mut files = Files {
            list: Vec::new(alloc),
            room: ROOM,
        };
        files.add(alloc, name, bytes)?;
        Ok(files)
    }

    /// Adds a file of this name and these bytes.
    pub(crate) fn add(
        &mut self,
        alloc: Global,
        name: &str,
        bytes: &[u8],
    ) -> Result<(), AllocError> {
        let name = String::from_str(alloc, name)?;
        let bytes = Vec::from_slice(alloc, bytes)?;
        self.list.push(File { name, bytes })?;
        Ok(())
    }

    /// A file system with these files. A call of a port moves at most `most` bytes.
    pub(crate) fn shelf(&self, alloc: Global, most: usize) -> Result<MemDepot, AllocError>
        requires { 1 ≤ most }
    {
        let mut depot = MemDepot::new(alloc, self.room, most).map_err(|_| AllocError)?;
        for file in &self.list {
            let bytes = Vec::from_slice(alloc, &file.bytes)?;
            depot.put(&file.name, bytes).map_err(|_| AllocError)?;
        }
        Ok(depot)
    }

    /// Whether the depot has them still.
    pub(crate) fn stand_in(&self, depot: &MemDepot) -> bool {
        for file in &self.list {
            if depot.get(&file.name) != Some(file.bytes.as_slice()) {
                return false;
            }
        }
        true
    }
}
