use crate::changes::PACKET;
use crate::hostile::{broadcast, first_wrong};
use sd_test_texts::BOOK;
use std::test::Fail;

// I/O errors at a stream of 600 packets, of which a clear stream has 112800 bytes.
const FAULTS: &str = "
$ call 0 | 4 | not made | | | | opens the card
device fault
$ call 1 | 4 | not made | | | | opens the stream
device fault
$ call 2 | 4 | not made | | | | makes OUT
device fault
$ call 3 | 4 | to 112800 | | | | closes OUT
device fault
$ X 1 | 4 | to 0 | | | | the second read of the stream
device fault
$ O 0 | 4 | to 0 | | | | the first write to OUT
device fault
$ call 3 | 4 | to 112800 | 757=pmt | | | a stream that isn't as it was sent, but is done all the same
device fault
$ call 3 | 10 | to 112800 | 943=90 | | | a refusal in the midst of a stream stands, though OUT fails to close
stream packet 5: parity
$ print 0 | 5 | not made | | 235=00 | | the last byte of the card's labels is another one
$ none | 0 | 112800 | | | | nothing fails
";

#[test]
fn failing_devices_are_told_by_receive(rt: HostRuntime) -> Result<(), Fail> {
    let sent = broadcast(rt.alloc(), BOOK, ["7", "600"], "0")?;
    let wrong = first_wrong(rt.alloc(), &sent, PACKET, FAULTS)?;
    assert!(rt; wrong.is_empty(), "{wrong}");
    Ok(())
}
