use crate::files::{
    Call, TEXT, gives, handed_on, host_call, machine_call, machine_gives, make_new, write,
};
use crate::machine::{Machine, Trouble};
use sd_host::{HostDepot, SAME_FILE, StdPrint};
use sd_ports::{FileFault, New, PortFault, write_all};
use std::fs::{Files, Permissions};
use std::io::ErrorKind;
use std::os::unix::fs::{MetadataExt, PermissionsExt, symlink};
use std::{fs, io};

#[test]
fn a_full_writer_is_a_fault(rt: HostRuntime) {
    let mut paper = [0u8; 3];
    let printed = write_all(&mut StdPrint::new(&mut paper[..]), TEXT);
    assert!(rt; printed == Err(PortFault) && &paper == b"abc");
}

const FILE: &str = "sd_host_file";

const BELOW: &str = "sd_host_file/x";

const LOOPED: &str = "sd_host_loop";

const LOOPED_TOO: &str = "sd_host_loop_too";

const TOLD: &str = "sd_host_told";

// A name that is too long for a file.
static LONG_NAME: [u8; 300] = [b'x'; 300];

// Names, and what is read there.
static READ: [(&str, Result<&str, FileFault>); 6] = [
    ("/dev/null", Ok("")),
    ("/dev/zero", Err(FileFault::TooBig)),
    ("/dev", Err(FileFault::Failed)),
    ("no such file", Err(FileFault::Missing)),
    (BELOW, Err(FileFault::Missing)),
    (LOOPED, Err(FileFault::Failed)),
];

// Names, and why nothing is written there.
static UNWRITTEN: [(&str, FileFault); 4] = [
    ("no such folder/file", FileFault::Missing),
    (BELOW, FileFault::Missing),
    ("/dev", FileFault::Failed),
    (LOOPED, FileFault::Failed),
];

#[test]
fn the_host_opens_files(rt: HostRuntime) -> io::Result<()> {
    let alloc = rt.alloc();
    let mut depot = HostDepot::new(alloc, &rt, false);
    fs::write(&rt, FILE, TEXT)?;
    symlink(&rt, LOOPED, LOOPED)?;
    for (name, want) in &READ {
        assert!(rt; gives(alloc, &mut depot, name, 200000, *want), "{name}");
    }
    for (name, want) in &UNWRITTEN {
        assert!(rt;
            write(alloc, &mut depot, name, TEXT) == Err(*want),
            "{name}"
        );
    }
    let long = str::from_utf8(&LONG_NAME).unwrap_or("");
    assert!(rt; gives(alloc, &mut depot, long, 200000, Err(FileFault::Failed)));
    assert!(rt; write(alloc, &mut depot, long, TEXT) == Err(FileFault::Failed));
    fs::remove_file(&rt, FILE)?;
    fs::remove_file(&rt, LOOPED)
}

// Names that can be neither read nor written, and what the machine says of them.
static FAULTY: [(&str, ErrorKind); 2] = [
    ("/dev", ErrorKind::IsADirectory),
    (LOOPED_TOO, ErrorKind::FilesystemLoop),
];

#[test]
fn the_last_error_is_told(rt: HostRuntime) -> io::Result<()> {
    let alloc = rt.alloc();
    let mut depot = HostDepot::new(alloc, &rt, false);
    symlink(&rt, LOOPED_TOO, LOOPED_TOO)?;
    assert!(rt; write(alloc, &mut depot, TOLD, TEXT) == Ok(()));
    assert!(rt;
        gives(
            alloc,
            &mut depot,
            "no such file",
            7,
            Err(FileFault::Missing)
        )
    );
    assert!(rt; depot.trouble().is_none());
    for (name, kind) in &FAULTY {
        assert!(rt; gives(alloc, &mut depot, name, 7, Err(FileFault::Failed)));
        assert!(rt; tells(&depot, name, *kind), "read {name}");
        assert!(rt; write(alloc, &mut depot, "/dev/full", TEXT).is_err());
        assert!(rt; tells(&depot, "/dev/full", ErrorKind::StorageFull));
        assert!(rt; write(alloc, &mut depot, name, TEXT).is_err());
        assert!(rt; tells(&depot, name, *kind), "written {name}");
    }
    // A file that is one of the inputs, by another path.
    assert!(rt; gives(alloc, &mut depot, TOLD, 7, Ok("abcdefg")));
    assert!(rt; write(alloc, &mut depot, "./sd_host_told", TEXT).is_err());
    assert!(rt; tells(&depot, "./sd_host_told", SAME_FILE));
    fs::remove_file(&rt, TOLD)?;
    fs::remove_file(&rt, LOOPED_TOO)
}

// Whether this is the last error of a depot.
fn tells(depot: &HostDepot<'_, HostRuntime>, name: &str, kind: ErrorKind) -> bool {
    match depot.trouble() {
        Some((of, said)) => of == name && said == kind,
        None => false,
    }
}

static LONG: [u8; 70000] = [7; 70000];

// Names, how many bytes are written there, and what comes of it.
static WRITTEN: [(&str, usize, Result<(), FileFault>); 3] = [
    ("sd_host_written", 70000, Ok(())),
    ("/dev/full", 1, Err(FileFault::Failed)),
    ("/dev/full", 70000, Err(FileFault::Failed)),
];

#[test]
fn the_host_writes_files(rt: HostRuntime) {
    let alloc = rt.alloc();
    let mut depot = HostDepot::new(rt.alloc(), &rt, false);
    for (name, size, want) in &WRITTEN {
        let bytes = LONG.get(..*size).unwrap_or(&[]);
        assert!(rt; write(alloc, &mut depot, name, bytes) == *want);
    }
    // A device may be read and written.
    assert!(rt; gives(alloc, &mut depot, "/dev/null", 7, Ok("")));
    assert!(rt; write(alloc, &mut depot, "/dev/null", TEXT) == Ok(()));
    let there = host_call(alloc, &mut depot, "sd_host_written", Call::Read(70000));
    assert!(rt; there.is_ok_and(|read| read.as_slice() == LONG.as_slice()));
    assert!(rt; fs::remove_file(&rt, "sd_host_written").is_ok());
}

#[test]
fn long_pieces_follow_what_waits(rt: HostRuntime) -> io::Result<()> {
    let alloc = rt.alloc();
    let name = "sd_host_pieces";
    let pieces = [TEXT, &LONG, &LONG, TEXT];
    for trouble in [Trouble::None, Trouble::Signals] {
        let machine = Machine {
            rt: &rt,
            output: "no such file",
            trouble,
        };
        let mut depot = HostDepot::new(alloc, &machine, false);
        let written = machine_call(alloc, &mut depot, name, Call::Pieces(&pieces));
        assert!(rt; written.is_ok());
        let mut reader = HostDepot::new(alloc, &rt, false);
        let there = host_call(alloc, &mut reader, name, Call::Read(200000));
        assert!(rt; there.is_ok_and(|read| are_in_turn(&read, &pieces)));
    }
    fs::remove_file(&rt, name)
}

#[test]
fn what_waits_is_handed_on(rt: HostRuntime) -> io::Result<()> {
    let name = "sd_host_handed";
    let mut depot = HostDepot::new(rt.alloc(), &rt, false);
    assert!(rt; handed_on(&rt, &mut depot, name)? == (0, 7));
    fs::remove_file(&rt, name)
}

// Whether the bytes are these pieces, one after the other.
fn are_in_turn(bytes: &[u8], pieces: &[&[u8]]) -> bool {
    let mut rest = bytes;
    for piece in pieces {
        match rest.strip_prefix(*piece) {
            Some(after) => rest = after,
            None => return false,
        }
    }
    rest.is_empty()
}

const INPUT: &str = "sd_host_input";

const HARD: &str = "sd_host_hard";

const SYMBOLIC: &str = "sd_host_symbolic";

const OTHER: &str = "sd_host_other";

const SPACED: &str = "sd_host_input ";

// Names of the two files that are read.
static INPUTS: [&str; 6] = [
    INPUT,
    "./sd_host_input",
    HARD,
    SYMBOLIC,
    OTHER,
    "./sd_host_other",
];

static MADE: [&str; 5] = [INPUT, HARD, SYMBOLIC, OTHER, SPACED];

#[test]
fn an_input_is_never_made_anew(rt: HostRuntime) -> io::Result<()> {
    let alloc = rt.alloc();
    let mut depot = HostDepot::new(alloc, &rt, false);
    assert!(rt; write(alloc, &mut depot, INPUT, TEXT) == Ok(()));
    fs::write(&rt, OTHER, b"longer than the first")?;
    fs::hard_link(&rt, INPUT, HARD)?;
    symlink(&rt, INPUT, SYMBOLIC)?;
    // Until the file is opened for reading, it is made anew.
    assert!(rt; write(alloc, &mut depot, HARD, b"abc") == Ok(()));
    assert!(rt; gives(alloc, &mut depot, INPUT, 7, Ok("abc")));
    assert!(rt; gives(alloc, &mut depot, OTHER, 70, Ok("longer than the first")));
    for alias in &INPUTS {
        let made = write(alloc, &mut depot, alias, TEXT);
        let is_kept = gives(alloc, &mut depot, INPUT, 7, Ok("abc"));
        assert!(rt; made == Err(FileFault::Failed) && is_kept, "{alias}");
    }
    // Another file isn't, though its name differs by a space.
    assert!(rt; write(alloc, &mut depot, SPACED, TEXT) == Ok(()));
    for file in &MADE {
        fs::remove_file(&rt, file)?;
    }
    Ok(())
}

#[test]
fn private_files_are_their_owners_alone(rt: HostRuntime) -> io::Result<()> {
    let name = "sd_host_private";
    fs::write(&rt, name, TEXT)?;
    let shared = fs::metadata(&rt, name)?.mode();
    fs::remove_file(&rt, name)?;
    for (private, want) in [(true, 0o100600), (false, shared)] {
        let mut depot = HostDepot::new(rt.alloc(), &rt, private);
        let written = write(rt.alloc(), &mut depot, name, TEXT);
        assert!(rt; (written, fs::metadata(&rt, name)?.mode()) == (Ok(()), want));
        // A file that was there keeps its mode.
        fs::set_permissions(&rt, name, Permissions::from_mode(0o640))?;
        let again = write(rt.alloc(), &mut depot, name, TEXT);
        assert!(rt; (again, fs::metadata(&rt, name)?.mode()) == (Ok(()), 0o100640));
        fs::remove_file(&rt, name)?;
    }
    Ok(())
}

const NEW: &str = "sd_host_new";

const DANGLING: &str = "sd_host_dangling";

const FOLDER: &str = "sd_host_folder";

const WITHIN: &str = "sd_host_folder/new";

// Names that are there: a file, by two paths; a link to none; a folder; an output.
static THERE: [&str; 5] = [NEW, "./sd_host_new", DANGLING, "/dev", "/dev/null"];

#[test]
fn a_new_file_is_made_once(rt: HostRuntime) -> io::Result<()> {
    let alloc = rt.alloc();
    let mut depot = HostDepot::new(alloc, &rt, true);
    symlink(&rt, "no such file", DANGLING)?;
    assert!(rt; make_new(alloc, &mut depot, NEW, TEXT) == Ok(New::Made));
    assert!(rt; fs::metadata(&rt, NEW)?.mode() == 0o100600);
    for name in &THERE {
        let made = make_new(alloc, &mut depot, name, b"other");
        assert!(rt; made == Ok(New::There), "{name}");
    }
    assert!(rt; gives(alloc, &mut depot, NEW, 70, Ok("abcdefg")));
    assert!(rt; gives(alloc, &mut depot, DANGLING, 70, Err(FileFault::Missing)));
    fs::create_dir(&rt, FOLDER)?;
    assert!(rt; make_new(alloc, &mut depot, WITHIN, TEXT) == Ok(New::Made));
    fs::remove_file(&rt, WITHIN)?;
    fs::remove_dir(&rt, FOLDER)?;
    assert!(rt; make_new(alloc, &mut depot, WITHIN, TEXT) == Err(FileFault::Missing));
    fs::remove_file(&rt, DANGLING)?;
    fs::remove_file(&rt, NEW)
}

const OUTPUT: &str = "sd_host_output";

static OUTPUTS: [&str; 3] = [OUTPUT, "./sd_host_output", "/dev/stdout"];

#[test]
fn the_output_is_written_through(rt: HostRuntime) -> io::Result<()> {
    let alloc = rt.alloc();
    let machine = Machine {
        rt: &rt,
        output: OUTPUT,
        trouble: Trouble::None,
    };
    for name in &OUTPUTS {
        fs::write(&rt, OUTPUT, b"kept ")?;
        let mut depot = HostDepot::new(alloc, &machine, false);
        assert!(rt;
            depot.knows_output()
                && depot.is_output(name)
                && machine_call(alloc, &mut depot, name, Call::Write(TEXT)).is_ok()
        );
        // It may not be read.
        assert!(rt; machine_gives(alloc, &mut depot, OUTPUT, 70, Err(FileFault::Failed)));
        let mut reader = HostDepot::new(alloc, &rt, false);
        assert!(rt;
            gives(alloc, &mut reader, OUTPUT, 70, Ok("kept abcdefg")),
            "{name}"
        );
    }
    fs::remove_file(&rt, OUTPUT)?;
    let machine = Machine {
        rt: &rt,
        output: "/dev/null",
        trouble: Trouble::None,
    };
    let depot = HostDepot::new(alloc, &machine, false);
    assert!(rt; depot.knows_output());
    assert!(rt; !depot.is_output("/dev/null") && !depot.is_output("/dev/stdout"));
    Ok(())
}

#[test]
fn an_output_out_of_sight_is_not_known(rt: HostRuntime) -> io::Result<()> {
    let alloc = rt.alloc();
    let machine = Machine {
        rt: &rt,
        output: "no such file",
        trouble: Trouble::None,
    };
    fs::write(&rt, OUTPUT, TEXT)?;
    let depot = HostDepot::new(alloc, &machine, false);
    assert!(rt; !depot.knows_output());
    assert!(rt; !depot.is_output(OUTPUT) && !depot.is_output("/dev/stdout"));
    fs::remove_file(&rt, OUTPUT)
}

// Troubles, and what is then read and written.
static TROUBLES: [(Trouble, Result<&str, FileFault>, Result<(), FileFault>); 3] = [
    (Trouble::Signals, Ok("abcdefg"), Ok(())),
    (
        Trouble::Failure,
        Err(FileFault::Failed),
        Err(FileFault::Failed),
    ),
    (Trouble::Uncut, Ok("abcdefg"), Err(FileFault::Failed)),
];

#[test]
fn troubles_are_told(rt: HostRuntime) -> io::Result<()> {
    let alloc = rt.alloc();
    let name = "sd_host_trouble";
    for (trouble, reads, writes) in &TROUBLES {
        fs::write(&rt, name, TEXT)?;
        let machine = Machine {
            rt: &rt,
            output: "no such file",
            trouble: *trouble,
        };
        let mut reader = HostDepot::new(alloc, &machine, false);
        assert!(rt; machine_gives(alloc, &mut reader, name, 7, *reads));
        let mut depot = HostDepot::new(alloc, &machine, false);
        let written = machine_call(alloc, &mut depot, name, Call::Write(TEXT)).map(|_| ());
        assert!(rt; written == *writes);
    }
    fs::remove_file(&rt, name)
}
