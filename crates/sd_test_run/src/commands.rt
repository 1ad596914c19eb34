use crate::files::Files;
use crate::leaving::{Fault, Leaving, left, made, out_name};
use crate::row::Row;
use crate::sums::has_sum;
use sd_command_base::Status;
use std::alloc::{AllocError, Global};
use std::test::Fail;

/// How many bytes go through a call of a port: fewer than half of any file that a command makes, and of any text.
const PIECE: usize = 8;

/// A run of a command in which nothing fails, and its files.
#[derive(Drop)]
struct Whole<'a> {
    files: &'a Files,
    row: Row<'a>,
    words: Vec<&'a str>,
    /// The files that it reads, in their order, each of one letter.
    reads: Vec<&'a str>,
    left: Leaving,
}

// The books, the accounts, the leaves and the first site of a chain that the commands read.
const TEXTS: &str = "
$ B
revoke 0
revoke 7
$ R
revoke 5
$ M
period
subscribe 5
$ A
assign ann 5
period
drop ann
$ P
revoke 0
revoke 2
$ L
1
6
$ E
$ 1
height 3
master 000102030405060708090a0b0c0d0e0f101112131415161718191a1b1c1d1e1f
ca 1234
emm 496
ecm 497
ecm-every 20
crypto-ecms 2
period-cryptos 1
messages 3
first-word 1
last-word 0
first-period 0
";

// The second site of the chain, the clear stream, the card and the broadcast that they read, and the commands that make
// them.
const MADE: &str = "5 = next 1 E 1000 2
C = sample 0 3 O
K = card S 0 O
X = head S M C O
";

/// The files that the commands read.
fn files(alloc: Global) -> Result<Files, AllocError> {
    let mut files = Files::new(alloc)?;
    for text in TEXTS.split('$').skip(1) {
        let row = Row::new(text);
        files.add(alloc, row.cell(0), row.printed.as_bytes())?;
    }
    for line in MADE.lines() {
        add_made(alloc, &mut files, line)?;
    }
    Ok(files)
}

/// Adds a file that a command makes.
fn add_made(alloc: Global, files: &mut Files, line: &str) -> Result<(), AllocError> {
    let (name, words) = line.split_once(" = ").ok_or(AllocError)?;
    let words: Vec<&str> = words.split(' ').collect(alloc)?;
    let bytes = made(alloc, files, &words)?;
    files.add(alloc, name, &bytes)
}

impl<'a> Whole<'a> {
    /// Whether it made and printed all.
    fn is_done(&self) -> bool {
        let left = &self.left;
        let (makes, prints) = (self.row.cell(3), self.row.cell(4));
        let out = match &left.out {
            Some(out) => has_sum(out, makes),
            None => makes.is_empty(),
        };
        let printed = has_sum(&left.printed, prints);
        matches!(left.status, Status::Done)
            && out
            && (printed || left.printed.is_empty() && prints.is_empty())
            && !left.failed
            && left.made == u64::from(left.out.is_some())
            && left.stayed
    }

    /// What is left where a call fails.
    fn left(&self, alloc: Global, fault: Fault<'_>) -> Result<Leaving, AllocError> {
        left(alloc, self.files, &self.words, PIECE, fault)
    }

    /// Whether a device's fault is told after the first whole lines, and OUT begins the whole one where it was made.
    fn is_failed(&self, left: &Leaving, is_made: bool) -> bool {
        let is_prefix = match &self.left.out {
            Some(whole) if is_made => left.is_prefix_of(whole),
            _ => left.out.is_none(),
        };
        matches!(left.status, Status::DepotFault)
            && left.status.code() == 4
            && self.is_told(&left.printed, b"device fault\n")
            && is_prefix
            && left.failed
            && left.made == u64::from(is_made)
            && left.stayed
    }

    /// Whether the line is printed after the first whole lines.
    fn is_told(&self, printed: &[u8], line: &[u8]) -> bool {
        let length = printed.len().saturating_sub(line.len());
        let prefix = printed.get(..length).unwrap_or(&[]);
        printed.ends_with(line)
            && self.left.printed.starts_with(prefix)
            && (prefix.is_empty() || prefix.ends_with(b"\n"))
    }

    /// Whether printing failed after so many bytes, and OUT is whole; or all is done where nothing is printed.
    fn is_cut_off(&self, left: &Leaving, length: usize) -> bool {
        let is_told = if self.left.printed.is_empty() {
            matches!(left.status, Status::Done) && left.printed.is_empty()
        } else {
            matches!(left.status, Status::PrintFault)
                && left.status.code() == 5
                && left.printed.len() == length
                && self.left.printed.starts_with(&left.printed)
        };
        is_told
            && left.out == self.left.out
            && !left.failed
            && left.made == self.left.made
            && left.stayed
    }

    /// Whether each call of the depot is told where it fails: one opens each file that is read, and two make OUT and
    /// close it.
    fn fails_at_calls(&self, alloc: Global) -> Result<bool, AllocError> {
        let reads = self.reads.len();
        let calls = if self.left.out.is_some() { 2 } else { 0 };
        for place in 0..reads.saturating_add(calls) {
            let number = u32::try_from(place).unwrap_or(u32::MAX);
            let left = self.left(alloc, Fault::Call(number))?;
            if !self.is_failed(&left, reads < place) {
                return Ok(false);
            }
        }
        Ok(true)
    }

    /// Whether the first and the second call of each file are told where they fail.
    fn fails_at_ports(&self, alloc: Global) -> Result<bool, AllocError> {
        let streams = self.row.cell(2) == "streams";
        let mut rest = self.reads.len();
        for name in &self.reads {
            rest = rest.saturating_sub(1);
            let is_made = streams && rest == 0;
            if !self.fails_at(alloc, name, is_made)? {
                return Ok(false);
            }
        }
        Ok(self.left.out.is_none() || self.fails_at(alloc, out_name(&self.words), true)?)
    }

    /// Whether the first and the second call of the port of this name are told where they fail.
    fn fails_at(&self, alloc: Global, name: &str, is_made: bool) -> Result<bool, AllocError> {
        let first = self.left(alloc, Fault::Port(name, 0))?;
        let second = self.left(alloc, Fault::Port(name, 1))?;
        Ok(self.is_failed(&first, is_made) && self.is_failed(&second, is_made))
    }

    /// Whether the first and the second print are told where they fail.
    fn fails_at_prints(&self, alloc: Global) -> Result<bool, AllocError> {
        let first = self.left(alloc, Fault::Print(0))?;
        let second = self.left(alloc, Fault::Print(1))?;
        Ok(self.is_cut_off(&first, 0) && self.is_cut_off(&second, PIECE))
    }

    /// Whether each call is told where it fails.
    fn fails_as_told(&self, alloc: Global) -> Result<bool, AllocError> {
        Ok(
            self.fails_at_calls(alloc)?
                && self.fails_at_ports(alloc)?
                && self.fails_at_prints(alloc)?,
        )
    }
}

// A command's words, the files that it reads, whether the last of them goes into OUT while it is read, and how the
// SHA-256 begins of OUT and of what is printed: nothing where there is none.
const COMMANDS: &str = "
$ cover S B | S B | | | 8f49d544add51b1c
$ layered S B 2 | S B | | | 49da13b5f9be295e
$ plan S B 600 3 | S B | | | 8a5646abe1cff276
$ status S B 0 | S B | | | 937c59ce4ec2feb3
$ accounts S A O | S A | | 6004a0e63339f065 | 20a39407d36daa17
$ book S R M O | S R M | | 1be60745ace5d12f |
$ card S 0 O | S | | a4b19001906beb19 |
$ lcard S 5 2 O | S | | c2961eac63670ce1 |
$ next 1 R 1000 2 | 1 R | | 3f8ce7de43fc2f05 | 8d0754468986376f
$ twin 5 500 6 | 5 | | 9e4a612bcb53447c |
$ sample 0 4 O | | | fcc946789d7bffb6 |
$ head S M C O | S M C | streams | 9c6d622db9f9fa35 |
$ receive K X O | K X | streams | 3e68d36a18df2132 |
$ watch K X O | K X | streams | 3e68d36a18df2132 | 11abc475179b3ba6
$ tables X | X | | | d29b54c31bc48ee2
$ messages S X | S X | | | 0fb3c1549838f547
$ show K | K | | | ec388e8d1fa19a31
$ opens S P L | S P L | | | de5663d6a325561e
$ trace S R L | S R L | | | 93d74fcfdebfd23e
$ trial S R C | S R C | | | 668c63a3ea9d5a9b
";

/// What the command of a row does if nothing fails.
fn whole_run<'a>(alloc: Global, files: &'a Files, row: Row<'a>) -> Result<Whole<'a>, AllocError> {
    let words: Vec<&str> = row.cell(0).split(' ').collect(alloc)?;
    let reads: Vec<&str> = row.cell(1).split_whitespace().collect(alloc)?;
    let left = left(alloc, files, &words, PIECE, Fault::Nowhere)?;
    Ok(Whole {
        files,
        row,
        words,
        reads,
        left,
    })
}

#[test]
fn failing_calls_are_told_by_each_command(rt: HostRuntime) -> Result<(), Fail> {
    let alloc = rt.alloc();
    let files = files(alloc)?;
    for row in COMMANDS.split('$').skip(1) {
        let whole = whole_run(alloc, &files, Row::new(row))?;
        assert!(rt; whole.is_done() && whole.fails_as_told(alloc)?, "{row}");
    }
    Ok(())
}
