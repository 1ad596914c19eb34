use sd_host::{Identity, Kind, Output, may_make, may_read};
use std::fs;
use std::os::unix::fs::MetadataExt;

/// A file's device and its inode number there.
#[derive(Drop)]
struct Numbered(u64, u64);

impl MetadataExt for Numbered {
    fn dev(&self) -> u64 {
        self.0
    }

    fn ino(&self) -> u64 {
        self.1
    }

    fn mode(&self) -> u32 {
        0o100600
    }

    fn nlink(&self) -> u64 {
        1
    }

    fn uid(&self) -> u32 {
        0
    }

    fn gid(&self) -> u32 {
        0
    }

    fn rdev(&self) -> u64 {
        0
    }

    fn size(&self) -> u64 {
        0
    }

    fn atime(&self) -> i64 {
        0
    }

    fn atime_nsec(&self) -> i64 {
        0
    }

    fn mtime(&self) -> i64 {
        0
    }

    fn mtime_nsec(&self) -> i64 {
        0
    }

    fn ctime(&self) -> i64 {
        0
    }

    fn ctime_nsec(&self) -> i64 {
        0
    }

    fn blksize(&self) -> u64 {
        4096
    }

    fn blocks(&self) -> u64 {
        0
    }
}

// A device and an inode number there, and whether they are the file's: the same file; its number on another device;
// another number on its device; and the two exchanged.
static FILES: [(u64, u64, bool); 4] = [(3, 7, true), (4, 7, false), (3, 8, false), (7, 3, false)];

#[test]
fn devices_are_told_apart(rt: HostRuntime) {
    let file = Identity::of(&Numbered(3, 7));
    for (device, inode, is_same) in &FILES {
        let other = Identity::of(&Numbered(*device, *inode));
        let may = [
            may_make(&[file], Kind::Regular, other),
            may_make(&[file], Kind::Block, other),
            may_read(Output::File(file), Kind::Regular, other),
        ];
        assert!(rt;
            (other == file) == *is_same && may == [!*is_same; 3],
            "{device} {inode}"
        );
    }
    // Two of the machine's devices, whose first folders mostly have one number.
    if let (Ok(processes), Ok(system)) = (fs::metadata(&rt, "/proc"), fs::metadata(&rt, "/sys")) {
        assert!(rt; Identity::of(&processes) != Identity::of(&system));
    }
}
