use crate::changes::changed;
use crate::files::Files;
use crate::leaving::{Fault, Leaving, left, made};
use crate::row::Row;
use crate::sums::has_sum;
use sd_test_texts::BOOK;
use std::alloc::{AllocError, Global};
use std::test::Fail;

/// A clear stream, what is sent of it, and a card.
#[derive(Drop)]
pub(crate) struct Sent {
    clear: Vec<u8>,
    stream: Vec<u8>,
    card: Vec<u8>,
}

/// What is sent under a book of so many packets of the sample stream of this number, and the card of a leaf.
pub(crate) fn broadcast(
    alloc: Global,
    book: &str,
    sample: [&str; 2],
    leaf: &str,
) -> Result<Sent, AllocError> {
    let [number, packets] = sample;
    let mut files = Files::new(alloc)?;
    files.add(alloc, "B", book.as_bytes())?;
    let card = made(alloc, &files, &["card", "S", leaf, "O"])?;
    let clear = made(alloc, &files, &["sample", number, packets, "O"])?;
    files.add(alloc, "C", &clear)?;
    let stream = made(alloc, &files, &["head", "S", "B", "C", "O"])?;
    Ok(Sent {
        clear,
        stream,
        card,
    })
}

/// The first row of a table that isn't so, if a call of a port moves at most `most` bytes, or the table if it has no
/// row: nothing if all rows are so. A row has the call that fails, the exit of `receive`, as many bytes as OUT has or
/// has at most, how the stream and the card are changed first, how the SHA-256 of the changed stream begins, and what
/// is printed.
pub(crate) fn first_wrong<'a>(
    alloc: Global,
    sent: &Sent,
    most: usize,
    table: &'a str,
) -> Result<&'a str, AllocError> {
    let Some((_, rows)) = table.split_once('$') else {
        return Ok(table);
    };
    for text in rows.split('$') {
        if !is_due(alloc, sent, most, Row::new(text))? {
            return Ok(text);
        }
    }
    Ok("")
}

fn is_due(alloc: Global, sent: &Sent, most: usize, row: Row<'_>) -> Result<bool, AllocError> {
    let stream = changed(alloc, &sent.stream, row.cell(3))?;
    let card = changed(alloc, &sent.card, row.cell(4))?;
    let left = received(alloc, &stream, &card, most, row.cell(0))?;
    Ok(
        (row.cell(5).is_empty() || has_sum(&stream, row.cell(5)))
            && is_told(&left, row)
            && is_written(&left, &sent.clear, row.cell(2)),
    )
}

/// What `receive` leaves if a call fails.
fn received(
    alloc: Global,
    stream: &[u8],
    card: &[u8],
    most: usize,
    fault: &str,
) -> Result<Leaving, AllocError> {
    let mut files = Files::new(alloc)?;
    files.add(alloc, "K", card)?;
    files.add(alloc, "X", stream)?;
    let fault = fault_of(fault).unwrap_or(Fault::Nowhere);
    left(
        alloc,
        &files,
        &["receive", "K", "X", "O"],
        most.max(1),
        fault,
    )
}

/// The call that fails: `call 0` of the file system, `X 1` of a port of this name, `print 0`, or `none`.
fn fault_of(text: &str) -> Option<Fault<'_>> {
    let (what, number) = text.split_once(' ')?;
    let number = number.parse::<u32>().ok()?;
    Some(match what {
        "call" => Fault::Call(number),
        "print" => Fault::Print(number),
        port => Fault::Port(port, number),
    })
}

/// Whether the exit and the line are the row's, and no call failed if none was to.
fn is_told(left: &Leaving, row: Row<'_>) -> bool {
    row.number(1) == Some(usize::from(left.status.code()))
        && left.printed.as_slice() == row.printed.as_bytes()
        && left.stayed
        && !(left.failed && row.cell(0) == "none")
}

/// Whether OUT begins the clear stream and has so many bytes, as in `376`, or at most so many, as in `to 112800`.
fn is_written(left: &Leaving, clear: &[u8], due: &str) -> bool {
    let Some(out) = &left.out else {
        return due == "not made";
    };
    let (limit, number) = due.split_once(' ').unwrap_or(("", due));
    let Ok(number) = number.parse::<usize>() else {
        return false;
    };
    clear.starts_with(out) && (out.len() == number || limit == "to" && out.len() < number)
}

// Changes of a stream. Packet 1 has the entitlements, packet 2 the first message. A section that is changed has a new
// CRC.
const REFUSED: &str = "
$ none | 10 | 0 | 227=02 268=89867C2D | | 43820d271dd22d6b | two entries are counted
stream packet 1: bad emm count
$ none | 10 | 0 | 231=02 235=03 268=999C4C22 | | f740a8ea630f0418 | the entry (2, 3)
stream packet 1: bad emm node
$ none | 10 | 0 | 211=DB 268=490C1A50 | | aed019aedcb53931 | another check of the period key
stream packet 1: wrong key of period 0 8e7c98755d4f1259303e2c26f84665c7 db7c98755d4f1259303e2c26f84665c7
$ none | 10 | 0 | 1=twice 399=DB 456=490C1A50 | | 855aa2890b350a6b | the same after the packet as it was
stream packet 2: bad emm mixed
$ none | 10 | 0 | 405=02 455=04B5B2BA | | acc750f21a4c0e5f | a message with another flag
stream packet 2: bad ecm mixed
$ none | 10 | 0 | 438=43 455=F8423FC2 | | 0d5e0930f2bfccec | a message with another check of the control word
stream packet 2: wrong word 0 16f21bec8b49a29a6bf944da8fbb98bb 43f21bec8b49a29a6bf944da8fbb98bb
$ none | 10 | 376 | 943=90 | | f3549435e632701b | a null packet that is scrambled as none is
stream packet 5: parity
$ none | 10 | 0 | 1315=cut | | e910df0e22a7f47d | the last packet lacks its last byte
stream packet 6: torn
$ none | 10 | 0 | 564=00 | | 9a42de8b1974bec2 | a packet begins with another byte
stream packet 3: no sync
$ none | 0 | 564 | 757=pmt | | 05a22626c1f163dd | the PMT as it was before it was rewritten
";

// The third message counts fewer clear packets than the one before.
const GONE_BACK: &str = "
$ none | 10 | 37600 | 76355=0064 76431=A08AD570 | | 5aa804beed23692a
stream packet 406: bad ecm back
";

#[test]
fn changed_streams_are_refused_by_name(rt: HostRuntime) -> Result<(), Fail> {
    let short = broadcast(rt.alloc(), "", ["0", "3"], "0")?;
    let wrong = first_wrong(rt.alloc(), &short, 1000, REFUSED)?;
    assert!(rt; wrong.is_empty(), "{wrong}");
    Ok(())
}

#[test]
fn a_message_that_goes_back_is_refused_by_name(rt: HostRuntime) -> Result<(), Fail> {
    let long = broadcast(rt.alloc(), BOOK, ["7", "600"], "0")?;
    let wrong = first_wrong(rt.alloc(), &long, 1000, GONE_BACK)?;
    assert!(rt; wrong.is_empty(), "{wrong}");
    Ok(())
}

// Changes of the card of leaf 5; the stream is empty.
const CARDS: &str = "
$ none | 8 | not made | 0=cut | 4=02
card: version
$ none | 8 | not made | 0=cut | 5=15
card: height
$ none | 8 | not made | 0=cut | 6=00000008
card: leaf
$ none | 8 | not made | 0=cut | end=00
card: length
$ none | 8 | not made | 0=cut | 251=cut
card: length
$ none | 8 | not made | 0=cut | 0=cut
card: magic
$ none | 8 | not made | 0=cut | 235=DF
card: check 813ac7b7ad90ee38b89d1475ba747af7 6ccfa5c4a25681cd5d8bc4ce0fae3a13
";

#[test]
fn changed_cards_are_refused_by_name(rt: HostRuntime) -> Result<(), Fail> {
    let sent = broadcast(rt.alloc(), "", ["0", "3"], "5")?;
    let wrong = first_wrong(rt.alloc(), &sent, 100, CARDS)?;
    assert!(rt; wrong.is_empty(), "{wrong}");
    Ok(())
}
