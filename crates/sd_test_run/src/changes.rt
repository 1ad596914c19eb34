use std::alloc::{AllocError, Global};

/// How many bytes a packet has.
pub(crate) const PACKET: usize = 188;

/// The PMT section of the sample stream, and what is after it where it stood rewritten.
const PMT: &str = "02B0170001C10000E100F0001BE100F0000FE101F0002F44B99BFFFFFFFFFFFF";

/// The bytes after these changes, one after the other: `227=02FF` puts bytes at a place, `757=pmt` the PMT section, and
/// `end=00` a byte after all; `251=cut` leaves at most so many bytes; `1=twice` repeats the packet of a number, and
/// `1=lost` leaves it out.
pub(crate) fn changed(alloc: Global, bytes: &[u8], changes: &str) -> Result<Vec<u8>, AllocError> {
    let mut bytes = Vec::from_slice(alloc, bytes)?;
    for change in changes.split_whitespace() {
        let (place, what) = change.split_once('=').unwrap_or((change, ""));
        bytes = changed_once(alloc, &bytes, place, what)?;
    }
    Ok(bytes)
}

fn changed_once(
    alloc: Global,
    bytes: &[u8],
    place: &str,
    what: &str,
) -> Result<Vec<u8>, AllocError> {
    let place = match place {
        "end" => bytes.len(),
        number => number.parse::<usize>().map_err(|_| AllocError)?,
    };
    let packet = place.saturating_mul(PACKET);
    let after = packet.saturating_add(PACKET);
    match what {
        "cut" => spliced(alloc, bytes, place, bytes.len(), &[]),
        "lost" => spliced(alloc, bytes, packet, after, &[]),
        "twice" => spliced(alloc, bytes, after, packet, &[]),
        _ => overwritten(alloc, bytes, place, what),
    }
}

/// The bytes of which others, in hexadecimal, stand from a place on.
fn overwritten(
    alloc: Global,
    bytes: &[u8],
    place: usize,
    what: &str,
) -> Result<Vec<u8>, AllocError> {
    let digits = if what == "pmt" { PMT } else { what };
    let piece = hex::decode(alloc, digits).map_err(|_| AllocError)?;
    spliced(
        alloc,
        bytes,
        place,
        place.saturating_add(piece.len()),
        &piece,
    )
}

/// The bytes before one place, a piece, and the bytes from another place on.
fn spliced(
    alloc: Global,
    bytes: &[u8],
    before: usize,
    after: usize,
    piece: &[u8],
) -> Result<Vec<u8>, AllocError> {
    let mut spliced = Vec::from_slice(alloc, bytes.get(..before).unwrap_or(bytes))?;
    spliced.extend_from_slice(piece)?;
    spliced.extend_from_slice(bytes.get(after..).unwrap_or(&[]))?;
    Ok(spliced)
}
