use sd_packet::{Packet, pack_section};
use sd_site_cards::{Site, read};

/// The site of a site file.
pub(crate) fn site_of(text: &str) -> Option<Site> {
    read(text.as_bytes()).ok()
}

/// The first and the last bytes of a PMT of 178 bytes, between which others count from 0.
pub(crate) type Ends = (&'static [u8], &'static [u8]);

/// What a packet is made of.
pub(crate) enum Made {
    /// A section, its PID and its counter.
    Section(&'static [u8], u16, u8),
    /// The ends of a PMT of 178 bytes, and its counter.
    Full(Ends, u8),
    /// A header, the byte after it, that in all places but the last, and the last.
    Plain([u8; 4], u8, u8, u8),
}

/// A null packet, and one that is scrambled.
pub(crate) const NULL: Made = Made::Plain([0x47, 0x1F, 0xFF, 0x10], 0xFF, 0xFF, 0xFF);

pub(crate) const SCRAMBLED: Made = Made::Plain([0x47, 0x1F, 0xFF, 0x90], 0xFF, 0xFF, 0xFF);

impl Made {
    /// The packet.
    pub(crate) fn packet(&self) -> Option<Packet> {
        match self {
            Made::Section(section, pid, counter) => packed(section, *pid, *counter),
            Made::Full((head, tail), counter) => full(head, tail, *counter),
            Made::Plain(header, length, fill, last) => plain(*header, *length, *fill, *last),
        }
    }
}

// The packet of a section.
fn packed(section: &[u8], pid: u16, counter: u8) -> Option<Packet> {
    if section.is_empty() || section.len() > 183 || pid > 0x1FFF || counter > 15 {
        return None;
    }
    Some(pack_section(section, pid, counter))
}

// The packet of a PMT of 178 bytes.
fn full(head: &[u8], tail: &[u8], counter: u8) -> Option<Packet> {
    let mut section = [0; 178];
    if head.len() + tail.len() > 178 || counter > 15 {
        return None;
    }
    let end = 178 - tail.len();
    section[..head.len()].copy_from_slice(head);
    for i in head.len()..end {
        section[i] = (i - head.len()) as u8;
    }
    section[end..].copy_from_slice(tail);
    Some(pack_section(&section, 0x1000, counter))
}

/// A packet with this header, this byte after it, and another in all places but the last.
pub(crate) fn plain(header: [u8; 4], length: u8, fill: u8, last: u8) -> Option<Packet> {
    let mut bytes = [fill; 188];
    bytes[..4].copy_from_slice(&header);
    bytes[4] = length;
    bytes[187] = last;
    Packet::new(bytes)
}
