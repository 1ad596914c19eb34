use sd_packet::Packet;
use sd_section::seal;

/// A row of a table of packets, and the bytes of its packet that are changed.
pub(crate) type Change = (usize, &'static [(usize, u8)]);

/// The packet that starts with these bytes, in hexadecimal, and ends with stuffing.
pub(crate) fn packet_of(start: &str) -> Option<Packet> {
    let mut bytes = [0xFF; 188];
    hex::decode_to_slice(start, bytes.get_mut(..start.len() / 2)?).ok()?;
    Packet::new(bytes)
}

/// The packet that starts so with these bytes changed, and the CRC of its section made right.
pub(crate) fn changed(start: &str, changes: &[(usize, u8)]) -> Option<Packet> {
    let mut bytes = *packet_of(start)?.bytes();
    for (place, byte) in changes {
        *bytes.get_mut(*place)? = *byte;
    }
    let length = usize::from(u16::from_be_bytes([bytes[6], bytes[7]]) % 4096);
    let section = bytes.get_mut(5..8 + length)?;
    if section.len() >= 4 {
        seal(section);
    }
    Packet::new(bytes)
}

/// The packet with a bit of this byte flipped, unless that is its sync byte.
pub(crate) fn flipped(packet: &Packet, place: usize) -> Option<Packet> {
    let mut bytes = *packet.bytes();
    *bytes.get_mut(place)? ^= 1;
    Packet::new(bytes)
}
