use crate::machine::Machine;
use sd_host::HostDepot;
use sd_ports::{Depot, FileFault, New, Sink, read_file, write_all, write_file, write_new};
use std::alloc::Global;
use std::io::{Error, ErrorKind};
use std::os::unix::fs::MetadataExt;
use std::{fs, io};

/// What is read and written.
pub(crate) const TEXT: &[u8] = b"abcdefg";

/// What is done with a file.
#[derive(Clone, Copy)]
pub(crate) enum Call<'a> {
    /// It is read, up to so many bytes.
    Read(usize),
    /// It is written.
    Write(&'a [u8]),
    /// It is written in pieces, by a call for each.
    Pieces(&'a [&'a [u8]]),
}

// A call at a type of depot is proved at length, so that all calls at one type stand in one function.

/// Does this with a file of the host, and gives what was read.
pub(crate) fn host_call(
    alloc: Global,
    depot: &mut HostDepot<'_, HostRuntime>,
    name: &str,
    call: Call<'_>,
) -> Result<Vec<u8>, FileFault> {
    done(alloc, depot, name, call)
}

/// Does this with a file of a machine with trouble, and gives what was read.
pub(crate) fn machine_call(
    alloc: Global,
    depot: &mut HostDepot<'_, Machine<'_, HostRuntime>>,
    name: &str,
    call: Call<'_>,
) -> Result<Vec<u8>, FileFault> {
    done(alloc, depot, name, call)
}

// Does this with a file of any depot, and gives what was read.
fn done<D: Depot>(
    alloc: Global,
    depot: &mut D,
    name: &str,
    call: Call<'_>,
) -> Result<Vec<u8>, FileFault> {
    match call {
        Call::Read(most) => return read_file(alloc, depot, name, most),
        Call::Write(bytes) => write_file(alloc, depot, name, bytes)?,
        Call::Pieces(pieces) => write_pieces(alloc, depot, name, pieces)?,
    }
    Ok(Vec::new(alloc))
}

// Makes a file of these pieces, each written by a call of its own.
#[tactic(auto, using(sd_ports::proofs::Outlets::there_after))]
fn write_pieces<D: Depot>(
    alloc: Global,
    depot: &mut D,
    name: &str,
    pieces: &[&[u8]],
) -> Result<(), FileFault> {
    let mut port = depot.create_out(alloc, name)?;
    let mut written = true;
    for piece in pieces {
        written = write_all(&mut port, piece).is_ok() && written;
    }
    let closed = depot.close_out(name, port).is_ok();
    if written && closed {
        Ok(())
    } else {
        Err(FileFault::Failed)
    }
}

/// Writes a file of the host.
pub(crate) fn write(
    alloc: Global,
    depot: &mut HostDepot<'_, HostRuntime>,
    name: &str,
    bytes: &[u8],
) -> Result<(), FileFault> {
    host_call(alloc, depot, name, Call::Write(bytes)).map(|_| ())
}

/// How many bytes a file of the host holds once TEXT was written, and once it was handed on, before it is closed.
pub(crate) fn handed_on(
    rt: &HostRuntime,
    depot: &mut HostDepot<'_, HostRuntime>,
    name: &str,
) -> io::Result<(u64, u64)> {
    let Ok(mut port) = depot.create_out(rt.alloc(), name) else {
        return Err(Error::from(ErrorKind::Other));
    };
    let written = write_all(&mut port, TEXT);
    let waiting = fs::metadata(rt, name)?.size();
    let handed = port.hand_on();
    let there = fs::metadata(rt, name)?.size();
    if written.is_ok() && handed.is_ok() && depot.close_out(name, port).is_ok() {
        Ok((waiting, there))
    } else {
        Err(Error::from(ErrorKind::Other))
    }
}

/// Writes a new file of the host.
pub(crate) fn make_new(
    alloc: Global,
    depot: &mut HostDepot<'_, HostRuntime>,
    name: &str,
    bytes: &[u8],
) -> Result<New, FileFault> {
    write_new(alloc, depot, name, bytes)
}

/// Whether a file of the host is read so.
pub(crate) fn gives(
    alloc: Global,
    depot: &mut HostDepot<'_, HostRuntime>,
    name: &str,
    most: usize,
    want: Result<&str, FileFault>,
) -> bool {
    is_so(&host_call(alloc, depot, name, Call::Read(most)), want)
}

/// Whether a file of a machine with trouble is read so.
pub(crate) fn machine_gives(
    alloc: Global,
    depot: &mut HostDepot<'_, Machine<'_, HostRuntime>>,
    name: &str,
    most: usize,
    want: Result<&str, FileFault>,
) -> bool {
    is_so(&machine_call(alloc, depot, name, Call::Read(most)), want)
}

fn is_so(read: &Result<Vec<u8>, FileFault>, want: Result<&str, FileFault>) -> bool {
    match read {
        Ok(bytes) => want.map(|text| text.as_bytes()) == Ok(bytes.as_slice()),
        Err(fault) => want == Err(*fault),
    }
}
