use crate::due::{CLEAR, Layout, Thing, counter_of, ending, is_confirmed};
use crate::ends::{broadcast, received};
use sd_packet::pack_section;
use sd_receive::Ending;
use sd_test_texts::site_start;
use std::alloc::{AllocError, Global};
use std::test::Fail;

static PAT: [u8; 16] = [
    0x00, 0xB0, 0x0D, 0x00, 0x01, 0xC1, 0x00, 0x00, 0x00, 0x01, 0xF0, 0x00, 0x2A, 0xB1, 0x04, 0xB2,
];

static PMT: [u8; 26] = [
    0x02, 0xB0, 0x17, 0x00, 0x01, 0xC1, 0x00, 0x00, 0xE1, 0x00, 0xF0, 0x00, 0x1B, 0xE1, 0x00, 0xF0,
    0x00, 0x0F, 0xE1, 0x01, 0xF0, 0x00, 0x2F, 0x44, 0xB9, 0x9B,
];

/// How many packets are sent.
const SENT: usize = 14;

/// The site's lines: a message before each second clear packet and a control word for two of them, as the layout has
/// them; the two control words that are needed; and a period for so many control words.
fn site(alloc: Global, layout: Layout, span: u32) -> Result<String, AllocError> {
    let Layout {
        version,
        first_word,
        first,
        ..
    } = layout;
    let last_word = first_word.wrapping_add(1);
    let start = site_start!("ecm-every 2\ncrypto-ecms 2\n");
    format!(in alloc;
        "{start}period-cryptos {span}\nmessages {version}\n\
        first-word {first_word}\nlast-word {last_word}\nfirst-period {first}\n"
    )
}

/// The clear packets: a PAT, its PMT, and four of a PID that is scrambled.
fn clear() -> [[u8; 188]; CLEAR] {
    let mut packets = [[0; 188]; CLEAR];
    packets[0] = *pack_section(&PAT, 0, 0).bytes();
    packets[1] = *pack_section(&PMT, 0x1000, 7).bytes();
    for k in 0..CLEAR {
        if let Some(counter) = counter_of(k) {
            packets[k] = [counter; 188];
            packets[k][..4].copy_from_slice(&[0x47, 0x01, 0x00, 0x10 | counter]);
        }
    }
    packets
}

/// The bytes with the PID on which a thing is sent.
fn pid_of(thing: Thing) -> [u8; 2] {
    match thing {
        Thing::Cat => [0x40, 0x01],
        Thing::Section(_) => [0x41, 0xF0],
        Thing::Message(_) => [0x41, 0xF1],
        Thing::Clear(0) => [0x40, 0x00],
        Thing::Clear(1) => [0x50, 0x00],
        Thing::Clear(_) => [0x01, 0x00],
    }
}

/// The packets of a stream, where it has as many as are sent.
fn packets_of(stream: &[u8]) -> Option<[[u8; 188]; SENT]> {
    let mut packets = [[0; 188]; SENT];
    for place in 0..SENT {
        packets[place] = *stream.get(place * 188..)?.first_chunk()?;
    }
    (stream.len() == SENT * 188).then_some(packets)
}

/// A broadcast, and who hears it.
#[derive(Clone, Copy)]
struct Trial<'a> {
    site: &'a [u8],
    leaf: u32,
    layout: Layout,
    packets: &'a [[u8; 188]; SENT],
    clear: &'a [[u8; 188]; CLEAR],
}

impl<'a> Trial<'a> {
    /// Whether what is sent is what the layout says.
    fn is_laid_out(&self) -> bool {
        let sent = self.layout.sent();
        for place in 0..SENT {
            if !self.packets[place][1..].starts_with(&pid_of(sent[place])) {
                return false;
            }
        }
        true
    }

    /// The packets whose bits are 1.
    fn stream(&self, alloc: Global, choice: u32) -> Result<Vec<u8>, AllocError> {
        let mut stream = Vec::new(alloc);
        for place in 0..SENT {
            if is_chosen(choice, place as u32) {
                stream.extend_from_slice(&self.packets[place])?;
            }
        }
        Ok(stream)
    }

    /// The things behind the first CAT whose bits are 1, if its bit is 1.
    fn heard(&self, alloc: Global, choice: u32) -> Result<Option<Vec<Thing>>, AllocError> {
        let sent = self.layout.sent();
        let mut heard = Vec::new(alloc);
        let mut is_tuned = false;
        for place in 0..SENT {
            if is_chosen(choice, place as u32) {
                if is_tuned {
                    heard.push(sent[place])?;
                }
                is_tuned = is_tuned || sent[place] == Thing::Cat;
            }
        }
        Ok(is_tuned.then_some(heard))
    }

    /// The clear packets that are confirmed.
    fn confirmed(&self, alloc: Global, heard: &[Thing]) -> Result<Vec<u8>, AllocError> {
        let mut out = Vec::new(alloc);
        for k in 0..CLEAR {
            if is_confirmed(heard, self.layout, k) {
                out.extend_from_slice(&self.clear[k])?;
            }
        }
        Ok(out)
    }

    /// What the receiver makes of the packets whose bits are 1.
    fn due(&self, alloc: Global, choice: u32) -> Result<(Ending, Vec<u8>), AllocError> {
        let heard = self.heard(alloc, choice)?;
        let things = heard.as_deref();
        let out = self.confirmed(alloc, things.unwrap_or(&[]))?;
        Ok((ending(things, self.layout, out.len() / 188), out))
    }

    /// Whether the receiver makes what is due of the packets whose bits are 1.
    fn is_due(&self, alloc: Global, choice: u32) -> Result<bool, AllocError> {
        let stream = self.stream(alloc, choice)?;
        let told = received(alloc, self.site, self.leaf, stream, CLEAR * 188);
        Ok(told == Some(self.due(alloc, choice)?))
    }

    /// The first choice of all packets but at most so many of which the receiver makes something else than is due.
    fn first_wrong(&self, alloc: Global, most_lost: u32) -> Result<Option<u32>, AllocError> {
        for choice in 0..1u32 << SENT {
            let are_few_lost = choice.count_ones().saturating_add(most_lost) >= SENT as u32;
            if are_few_lost && !self.is_due(alloc, choice)? {
                return Ok(Some(choice));
            }
        }
        Ok(None)
    }
}

/// Whether the bit of a place is 1.
fn is_chosen(choice: u32, place: u32) -> bool {
    choice.wrapping_shr(place) & 1 == 1
}

/// The first wrong choice of the packets of a broadcast, of which at most so many are lost.
fn first_wrong(alloc: Global, layout: Layout, most_lost: u32) -> Result<Option<u32>, Fail> {
    let (book, span): (&[u8], u32) = match layout.later {
        0 => (b"", 2),
        1 => (b"period\nrevoke 5\n", 1),
        _ => (b"period\nperiod\nrevoke 5\n", 1),
    };
    let site = site(alloc, layout, span)?;
    let clear = clear();
    let bytes = Vec::from_slice(alloc, clear.as_flattened())?;
    let stream = broadcast(alloc, site.as_bytes(), book, bytes, SENT * 188).ok_or("no broadcast")?;
    let trial = Trial {
        site: site.as_bytes(),
        leaf: if layout.revoked { 5 } else { 0 },
        layout,
        packets: &packets_of(&stream).ok_or("another count of packets")?,
        clear: &clear,
    };
    if !trial.is_laid_out() {
        return Err("another order of packets".into());
    }
    Ok(trial.first_wrong(alloc, most_lost)?)
}

// A broadcast in one period; one in which the leaf is revoked in the next period; and one of version 2 with later words
// and periods.
static LAYOUTS: [Layout; 3] = [
    Layout {
        version: 1,
        first_word: 0,
        first: 0,
        later: 0,
        revoked: false,
    },
    Layout {
        version: 1,
        first_word: 0,
        first: 0,
        later: 1,
        revoked: true,
    },
    Layout {
        version: 2,
        first_word: 7,
        first: 1,
        later: 2,
        revoked: false,
    },
];

#[test]
fn few_losses_give_what_is_confirmed(rt: HostRuntime) -> Result<(), Fail> {
    for layout in &LAYOUTS {
        let wrong = first_wrong(rt.alloc(), *layout, 3)?;
        assert!(rt; wrong.is_none(), "{wrong:?}");
    }
    Ok(())
}

// Takes many minutes before its proof, so `quick-tests` leaves it out.
#[test]
fn every_choice_of_packets_gives_what_is_confirmed(rt: HostRuntime) -> Result<(), Fail> {
    for layout in &LAYOUTS {
        let wrong = first_wrong(rt.alloc(), *layout, SENT as u32)?;
        assert!(rt; wrong.is_none(), "{wrong:?}");
    }
    Ok(())
}
