use crate::leaving::{Fault, Leaving};
use crate::parts::{Part, bytes_of};
use crate::rows::{File, over, sampled, tells};
use sd_command_base::{Status, StreamRefusal};
use sd_message::ClearFault;
use sd_test_texts::SITE;
use std::alloc::{AllocError, Global};

/// The digests of nothing, and of the first 200 and 400 packets of the clear stream.
const NOTHING: &str = "e3b0c44298fc1c149afbf4c8996fb924";

const FIRST_200: &str = "cc8f355dd52654098b1d7a22ca415505";

const FIRST_400: &str = "65ca572549de292daf9c613e29bc7ad9";

/// Lines of a site that shares its cards: from the first word and the last to the first period.
const WORDS: &str = "messages 2\nfirst-word 7\nlast-word 8\nfirst-period 1\n";

const HIGH: &str = "messages 2\nfirst-word 1\nlast-word 2\nfirst-period 4294967295\n";

const LAST: &str = "messages 2\nfirst-word 1\nlast-word 2\nfirst-period 1023\n";

/// Lines after the site's, a script, the first line that is printed, and how many packets each receiver writes.
type Row = (&'static str, &'static str, &'static str, [u32; 8]);

static ROWS: [Row; 9] = [
    (
        "",
        "send 250\nrevoke 5\nsend 350\noffer 5 607\noffer 0 607\nlose 3 3\noffer 3 604\noffer 1 300\noff 1\non 1\noffer 1 307\n",
        "sends 600 packets 607 period 1\n",
        [400, 200, 0, 0, 0, 400, 0, 0],
    ),
    (
        "",
        "send 1\nrevoke 0\nsend 400\noffer 0 408\n",
        "sends 401 packets 408 period 1\n",
        [400, 0, 0, 0, 0, 0, 0, 0],
    ),
    (
        "",
        "revoke 0\nsend 1\nrevoke 0\nsend 400\noffer 0 408\n",
        "sends 401 packets 408 period 1\n",
        [0; 8],
    ),
    (
        WORDS,
        "send 250\nrevoke 5\nsend 350\noffer 5 607\noffer 0 607\n",
        "sends 600 packets 607 period 2\n",
        [400, 0, 0, 0, 0, 400, 0, 0],
    ),
    (
        WORDS,
        "revoke 5\nsend 401\noffer 5 408\n",
        "sends 401 packets 408 period 2\n",
        [0; 8],
    ),
    (
        HIGH,
        "revoke 5\nsend 250\nrevoke 0\nsend 350\noffer 5 607\noffer 0 607\n",
        "sends 600 packets 607 period 1023\n",
        [400, 0, 0, 0, 0, 0, 0, 0],
    ),
    (
        LAST,
        "revoke 5\nsend 250\nrevoke 0\nsend 350\noffer 5 607\noffer 0 607\n",
        "sends 600 packets 607 period 1023\n",
        [400, 0, 0, 0, 0, 0, 0, 0],
    ),
    (
        ONE_WORD,
        "send 400\n",
        "sends 400 packets 404 period 0\n",
        [0; 8],
    ),
    (
        "",
        "off 0\non 0\noffer 0 3\n",
        "sends 0 packets 0 period 0\n",
        [0; 8],
    ),
];

/// The digest of a receiver that writes so many packets.
fn digest_of(wrote: u32) -> &'static str {
    match wrote {
        0 => NOTHING,
        200 => FIRST_200,
        _ => FIRST_400,
    }
}

/// The lines of a field: the first, and that of each receiver.
fn lines(alloc: Global, first: &str, wrote: &[u32; 8]) -> Result<String, AllocError> {
    let mut text = String::from_str(alloc, first)?;
    for u in 0..8 {
        let count = wrote[u];
        let digest = digest_of(count);
        write!(text, "receiver {u} wrote {count} digest {digest}\n")?;
    }
    Ok(text)
}

/// What `field` leaves over a site, a clear stream and a script.
fn over_field<'a>(
    alloc: Global,
    site: &[u8],
    clear: &'a [u8],
    script: &'a [u8],
) -> Result<Leaving, AllocError> {
    let files: [File<'a>; 2] = [("C", clear), ("E", script)];
    let words = ["field", "S", "C", "E"];
    over(alloc, &words, site, &files, 4096, Fault::Nowhere)
}

/// What `field` leaves over a site with more lines and the clear stream of 600 packets.
fn after(alloc: Global, more: &str, script: &str) -> Result<Leaving, AllocError> {
    let site = format!(in alloc; "{SITE}{more}")?;
    let clear = sampled(alloc, 7, 600)?;
    over_field(alloc, site.as_bytes(), &clear, script.as_bytes())
}

/// Whether `field` prints the lines of the row.
fn is_printed(alloc: Global, row: &Row) -> Result<bool, AllocError> {
    let (more, script, first, wrote) = row;
    let due = lines(alloc, first, wrote)?;
    let left = after(alloc, more, script)?;
    Ok(tells(&left, 0, &due))
}

#[test]
fn fields_are_printed(rt: HostRuntime) -> Result<(), AllocError> {
    for row in &ROWS {
        let script = row.1;
        assert!(rt; is_printed(rt.alloc(), row)?, "{script}");
    }
    Ok(())
}

/// Lines of a site that has one control word.
const ONE_WORD: &str = "messages 1\nfirst-word 7\nlast-word 7\nfirst-period 0\n";

/// Whether `field` tells alone that it sends more than the one control word covers.
fn is_refused_alone(alloc: Global) -> Result<bool, AllocError> {
    let left = after(alloc, ONE_WORD, "send 401\noffer 0 405\n")?;
    let is_refused = matches!(
        left.status,
        Status::BadClear(StreamRefusal::Packet(ClearFault::TooLong(400)))
    );
    Ok(is_refused && tells(&left, 9, "clear packet 400: too long\n"))
}

#[test]
fn refused_sends_are_told_alone(rt: HostRuntime) -> Result<(), AllocError> {
    assert!(rt; is_refused_alone(rt.alloc())?);
    Ok(())
}

/// A site with a message and a period for each packet, whose first period is 823.
const OWN_PERIODS: &str = "height 1
master a2cff8fcc9da35af5de122bd16dcf1ba26f3742ab4c6b9fdfaec10ecfdf9195d
ca b325
emm 8175
ecm 32
ecm-every 1
crypto-ecms 1
period-cryptos 1
messages 2
first-word 1
last-word 1000001
first-period 823
";

/// As many null packets as the script sends.
const NULLS: &[Part] = &[Part::Packets(8191, 1023)];

const CHANGES: &str = "send 1
subscribe 1
send 1
revoke 1
send 200
revoke 0
send 821
subscribe 1
offer 0 65536
offer 1 65536
";

const CHANGED: &str = "sends 1023 packets 4092 period 1023
receiver 0 wrote 1022 digest f9425dfb392e9ccd99fd6dba3aade1e0
receiver 1 wrote 2 digest 359c3b375d9d49ddc89b3cc78a8f3eb5
";

#[test]
fn each_packet_may_have_a_period(rt: HostRuntime) -> Result<(), AllocError> {
    let alloc = rt.alloc();
    let clear = bytes_of(alloc, NULLS)?;
    let left = over_field(alloc, OWN_PERIODS.as_bytes(), &clear, CHANGES.as_bytes())?;
    assert!(rt; tells(&left, 0, CHANGED));
    Ok(())
}

/// A script of more than 1,200 lines: each packet is sent, and is offered to receiver 0, by a line of its own.
const EACH_BY_A_LINE: &[Part] = &[
    Part::Times(250, b"send 1\n"),
    Part::Bytes(b"revoke 5\n"),
    Part::Times(350, b"send 1\n"),
    Part::Bytes(b"offer 5 607\n"),
    Part::Times(607, b"offer 0 1\n"),
];

#[test]
fn a_script_may_have_a_line_for_each_event(rt: HostRuntime) -> Result<(), AllocError> {
    let alloc = rt.alloc();
    let clear = sampled(alloc, 7, 600)?;
    let script = bytes_of(alloc, EACH_BY_A_LINE)?;
    let left = over_field(alloc, SITE.as_bytes(), &clear, &script)?;
    let first = "sends 600 packets 607 period 1\n";
    let due = lines(alloc, first, &[400, 0, 0, 0, 0, 400, 0, 0])?;
    assert!(rt; tells(&left, 0, &due));
    Ok(())
}
