use crate::changes::{PACKET, changed};
use crate::leaving::uncounted;
use crate::row::Row;
use crate::sums::has_sum;
use sd_command_base::Status;
use sd_ports::MemSink;
use sd_ports_memory::MemDepot;
use std::alloc::{AllocError, Global};

/// The room for a file, and how many bytes are read and written at a time.
const ROOM: usize = 131_072;

const PIECE: usize = 65_536;

/// A file system with a site, a book, the files of a table, and what the commands of these lines make.
pub(crate) fn shelf(
    alloc: Global,
    site: &str,
    book: &str,
    files: &str,
    commands: &str,
) -> Result<MemDepot, AllocError> {
    let mut depot = MemDepot::new(alloc, ROOM, PIECE).map_err(|_| AllocError)?;
    put(alloc, &mut depot, "site", site)?;
    put(alloc, &mut depot, "book", book)?;
    for text in files.split('$').skip(1) {
        let row = Row::new(text);
        put(alloc, &mut depot, row.cell(0), row.printed)?;
    }
    follow(alloc, &mut depot, commands)?;
    Ok(depot)
}

/// Runs the commands of these lines.
pub(crate) fn follow(alloc: Global, depot: &mut MemDepot, lines: &str) -> Result<(), AllocError> {
    for words in lines.lines() {
        answered(alloc, depot, words)?;
    }
    Ok(())
}

/// Adds a file.
pub(crate) fn put(
    alloc: Global,
    depot: &mut MemDepot,
    name: &str,
    text: &str,
) -> Result<(), AllocError> {
    let bytes = Vec::from_slice(alloc, text.as_bytes())?;
    depot.put(name, bytes).map_err(|_| AllocError)
}

/// The bytes of a file, or none where it isn't there.
pub(crate) fn file(alloc: Global, depot: &MemDepot, name: &str) -> Result<Vec<u8>, AllocError> {
    match depot.get(name) {
        Some(bytes) => Vec::from_slice(alloc, bytes),
        None => Ok(Vec::new(alloc)),
    }
}

/// Adds a file: `lossy = sent 1=lost`, say, is the file `sent` after a change.
pub(crate) fn add_changed(
    alloc: Global,
    depot: &mut MemDepot,
    text: &str,
) -> Result<(), AllocError> {
    let (name, from) = text.split_once(" = ").unwrap_or((text, ""));
    let (from, changes) = from.split_once(' ').unwrap_or((from, ""));
    let bytes = changed(alloc, depot.get(from).unwrap_or(&[]), changes)?;
    depot.put(name, bytes).map_err(|_| AllocError)
}

/// The first row of a table that isn't so, or the table if it has no row: nothing if all rows are so. A row has a
/// command, its exit, how its last argument's file begins after it, which file is added before it, and what it prints.
pub(crate) fn first_wrong<'a>(
    alloc: Global,
    depot: &mut MemDepot,
    table: &'a str,
) -> Result<&'a str, AllocError> {
    let Some((_, rows)) = table.split_once('$') else {
        return Ok(table);
    };
    for text in rows.split('$') {
        if !goes(alloc, depot, Row::new(text))? {
            return Ok(text);
        }
    }
    Ok("")
}

fn goes(alloc: Global, depot: &mut MemDepot, row: Row<'_>) -> Result<bool, AllocError> {
    let words = row.cell(0);
    if !row.cell(3).is_empty() {
        add_changed(alloc, depot, row.cell(3))?;
    }
    let (status, printed) = answered(alloc, depot, words)?;
    Ok(
        row.number(1) == Some(usize::from(status.code()))
            && printed.as_slice() == row.printed.as_bytes()
            && is_made(depot, words, row.cell(2)),
    )
}

/// Whether the last argument's file is as it is due: its SHA-256 begins so, or it is there and has so many of the first
/// packets of a clear stream, as in `clear-1 400`.
fn is_made(depot: &MemDepot, words: &str, due: &str) -> bool {
    let name = words.split(' ').last().unwrap_or("");
    let made = depot.get(name);
    match due.split_once(' ') {
        Some((clear, packets)) => begins(made, depot.get(clear), packets),
        None => due.is_empty() || has_sum(made.unwrap_or(&[]), due),
    }
}

fn begins(made: Option<&[u8]>, clear: Option<&[u8]>, packets: &str) -> bool {
    match (made, clear, packets.parse::<usize>()) {
        (Some(made), Some(clear), Ok(packets)) => {
            made.len() == packets.wrapping_mul(PACKET) && clear.starts_with(made)
        }
        _ => false,
    }
}

/// What the words come to, and what is printed.
fn answered(
    alloc: Global,
    depot: &mut MemDepot,
    words: &str,
) -> Result<(Status, Vec<u8>), AllocError> {
    let mut list = Vec::new(alloc);
    for word in words.split(' ') {
        list.push(String::from_str(alloc, word)?)?;
    }
    let mut print = MemSink::new(alloc, 4096, 4096, Vec::new(alloc)).map_err(|_| AllocError)?;
    let status = uncounted(alloc, &list, depot, &mut print);
    Ok((status, print.into_bytes()))
}
