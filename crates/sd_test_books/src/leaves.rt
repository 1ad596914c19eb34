use sd_command_base::{LeavesFault, read};
use sd_tree_keys::Height;
use std::alloc::Global;
use std::test::Fail;

// The numbers of the leaves that a text says at this height, or the number of its first bad line.
fn leaves_of(alloc: Global, height: u8, text: &[u8]) -> Option<Result<Vec<u32>, u32>> {
    let h = Height::new(height)?;
    match read(alloc, text, h) {
        Ok(leaves) => {
            let mut numbers = Vec::new(alloc);
            for leaf in &leaves {
                numbers.push(leaf.get()).ok()?;
            }
            Some(Ok(numbers))
        }
        Err(LeavesFault::Line(line)) => Some(Err(line)),
        Err(LeavesFault::NoMemory) => None,
    }
}

// A height, a file of leaves, and its leaves or its first bad line.
static FILES: [(u8, &[u8], Result<&[u32], u32>); 11] = [
    (3, b"", Ok(&[])),
    (3, b"1\n6\n", Ok(&[1, 6])),
    (3, b"0\n7", Ok(&[0, 7])),
    (20, b"1048575\n", Ok(&[1_048_575])),
    (3, b"8\n", Err(1)),
    (3, b"1\n0\n", Err(2)),
    (3, b"1\n1\n", Err(2)),
    (3, b"0\n\n1\n", Err(2)),
    (3, b"07\n", Err(1)),
    (3, b"1\n2\n4294967296\n", Err(3)),
    (3, b"1\r\n", Err(1)),
];

// Whether a text says these leaves at this height, or has this first bad line.
fn says(alloc: Global, height: u8, text: &[u8], due: Result<&[u32], u32>) -> Option<bool> {
    match leaves_of(alloc, height, text)? {
        Ok(numbers) => Some(due == Ok(numbers.as_slice())),
        Err(line) => Some(due == Err(line)),
    }
}

#[test]
fn leaves_are_read_line_by_line(rt: HostRuntime) -> Result<(), Fail> {
    for (height, text, due) in &FILES {
        assert!(rt; says(rt.alloc(), *height, text, *due).ok_or("no leaves")?);
    }
    Ok(())
}
