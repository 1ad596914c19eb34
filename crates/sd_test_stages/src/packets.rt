use hex::decode_to_slice;
use sd_packet::Packet;

/// The packet of entitlements for period 0 and all leaves, as an independent implementation wrote it, up to the
/// stuffing.
pub(crate) const ALL: &str =
    "4741f0100082b04c0000c10000000000000000000100018e7c98755d4f1259303e2c26f84665c7010000000000000000a96f\
    c38d45af14016d8f9f0d1688616d0d70f5ba661218fb326af486ddaa0354cdb2897d";

/// The bytes of a packet that begins so, with stuffing after that.
pub(crate) fn beginning(text: &str) -> Option<[u8; 188]> {
    let mut bytes = [0xFF; 188];
    decode_to_slice(text, bytes.get_mut(..text.len() / 2)?).ok()?;
    Some(bytes)
}

/// The packet that begins so.
pub(crate) fn packet(text: &str) -> Option<Packet> {
    Packet::new(beginning(text)?)
}
