ghost use Rattle.std.specs.Prelude.{◌≡◌, ◌+◌, ◌-◌, ◌<◌, ◌≤◌, ◌++◌, Some, None, IfOk, MatchResult, length, take};
ghost use Rattle.std.specs.Prelude.{replicate};
ghost use Rattle.std.specs.Result.{OnOk, OnErr};
ghost use Rattle.sd_packet.specs.Header.{payload_start_of, payload_of};
ghost use Rattle.sd_section.specs.Header.{section_length_of};
ghost use Rattle.sd_section.specs.Written.{with_crc};
ghost use Rattle.sd_psi.specs.Tables.{info_length_of};
ghost use Rattle.sd_psi.specs.Forms.{after_pointer};
ghost use Rattle.sd_psi.specs.Rewriting.{ca_descriptor as ca_descriptor_of, with_lengths, section_with_descriptor};
ghost use Rattle.sd_psi.specs.Rewriting.{section_without_descriptor, pmt_with_descriptor};
ghost use Rattle.sd_psi.specs.Rewriting.{pmt_without_descriptor, rewrite_fault, restore_fault, removal_fault};
ghost use Rattle.sd_psi.specs.Undone.{KeepsHeader};

use crate::descriptor::CA_TAG;
use crate::fault::FormFault;
use crate::form::{Table, read};
use crate::pmt::pmt_in;
use sd_base::fields;
use sd_packet::Packet;
use sd_section::seal;

const STUFFING: u8 = 0xFF;

// How many bytes the project's CA_descriptor has.
const SIZE: usize = 6;

/// Puts the project's CA_descriptor before the PMT's others. After a refusal the packet is unchanged.
#[tactic(auto, using(crate::proofs::Packets::sync_stays, crate::proofs::Packets::payload_long, crate::proofs::Packets::piece_section, crate::proofs::Packets::piece_info))]
pub fn rewrite_pmt(packet: &mut Packet, ca: u16, pid: u16) -> Result<(), FormFault>
    requires payload { payload_start_of packet.old < 188 }
    requires pid { pid < 8192 }
    ensures value { OnOk result (packet.new ≡ pmt_with_descriptor ca pid packet.old) }
    ensures fault { MatchResult result (λ _. rewrite_fault packet.old ≡ None)
        (λ fault. rewrite_fault packet.old ≡ Some fault) }
    ensures unchanged { OnErr result (packet.new ≡ packet.old) }
    ensures header { OnOk result (KeepsHeader packet.old packet.new) }
{
    let length = judge_rewrite(packet)?;
    let start = packet.payload_start() + 1;
    let mut bytes = *packet.bytes();
    insert(
        &mut bytes[start..start + length + SIZE],
        &ca_descriptor(ca, pid),
    );
    *packet = Packet::new(bytes).unwrap();
    Ok(())
}

/// Removes the project's CA_descriptor, which is the PMT's first. After a refusal the packet is unchanged.
#[tactic(auto, using(crate::proofs::Packets::sync_stays, crate::proofs::Packets::payload_long, crate::proofs::Packets::piece_section, crate::proofs::Packets::piece_info))]
pub fn restore_pmt(packet: &mut Packet, ca: u16, pid: u16) -> Result<(), FormFault>
    requires payload { payload_start_of packet.old < 188 }
    requires pid { pid < 8192 }
    ensures value { OnOk result (packet.new ≡ pmt_without_descriptor packet.old) }
    ensures fault { MatchResult result (λ _. restore_fault ca pid packet.old ≡ None)
        (λ fault. restore_fault ca pid packet.old ≡ Some fault) }
    ensures unchanged { OnErr result (packet.new ≡ packet.old) }
    ensures header { OnOk result (KeepsHeader packet.old packet.new) }
{
    let length = judge_restore(packet, &ca_descriptor(ca, pid))?;
    let start = packet.payload_start() + 1;
    let mut bytes = *packet.bytes();
    remove(&mut bytes[start..start + length]);
    *packet = Packet::new(bytes).unwrap();
    Ok(())
}

// How many bytes the PMT has, where the packet may be rewritten.
fn judge_rewrite(packet: &Packet) -> Result<usize, FormFault>
    requires { payload_start_of packet.now < 188 }
    ensures fault { MatchResult result (λ _. rewrite_fault packet.now ≡ None)
        (λ fault. rewrite_fault packet.now ≡ Some fault) }
    ensures long { IfOk result (λ count. count ≡ 3 + section_length_of (after_pointer packet.now)) }
    ensures info { IfOk result (λ count. 16 + info_length_of (after_pointer packet.now) ≤ count) }
    ensures room { IfOk result (λ count. count + 6 < length (payload_of packet.now)) }
{
    let section = read(Table::Pmt, packet)?;
    let length = section.whole().len();
    if packet.payload().len() < 1 + length + SIZE {
        return Err(FormFault::NoRoom);
    }
    if pmt_in(&section).is_none() {
        return Err(FormFault::Descriptor);
    }
    Ok(length)
}

// How many bytes the PMT has, where its first descriptor may be removed.
fn judge_restore(packet: &Packet, descriptor: &[u8; SIZE]) -> Result<usize, FormFault>
    requires payload { payload_start_of packet.now < 188 }
    requires six { length descriptor.now ≡ 6 }
    ensures fault { MatchResult result (λ _. removal_fault descriptor.now packet.now ≡ None)
        (λ fault. removal_fault descriptor.now packet.now ≡ Some fault) }
    ensures long { IfOk result (λ count. count ≡ 3 + section_length_of (after_pointer packet.now)) }
    ensures info { IfOk result (λ count. 16 + info_length_of (after_pointer packet.now) ≤ count) }
    ensures first { IfOk result (λ count. 6 ≤ info_length_of (after_pointer packet.now)) }
    ensures within { IfOk result (λ count. count < length (payload_of packet.now)) }
{
    let section = read(Table::Pmt, packet)?;
    let Some(pmt) = pmt_in(&section) else {
        return Err(FormFault::Descriptor);
    };
    if !pmt.begins_with(descriptor) {
        return Err(FormFault::Descriptor);
    }
    Ok(section.whole().len())
}

// The project's CA_descriptor (ISO/IEC 13818-1, 2.6.16).
fn ca_descriptor(ca: u16, pid: u16) -> [u8; SIZE]
    requires { pid < 8192 }
    ensures { result ≡ ca_descriptor_of ca pid }
{
    let mut bytes = [0; SIZE];
    write_descriptor(&mut bytes, ca, pid);
    bytes
}

fn write_descriptor(bytes: &mut [u8], ca: u16, pid: u16)
    requires six { length bytes.old ≡ 6 }
    requires pid { pid < 8192 }
    ensures { bytes.new ≡ ca_descriptor_of ca pid }
{
    fields! {
        bytes;
        descriptor_tag: 0, 8 = u64::from(CA_TAG);
        descriptor_length: 8, 8 = 4;
        ca_system_id: 16, 16 = u64::from(ca);
        reserved: 32, 3 = 0b111;
        ca_pid: 35, 13 = u64::from(pid);
    }
}

// Writes both lengths into the first twelve bytes of a PMT.
fn set_lengths(head: &mut [u8], section_length: u64, info_length: u64)
    requires twelve { length head.old ≡ 12 }
    requires section { section_length < 4096 }
    requires info { info_length < 4096 }
    ensures value { head.new ≡ with_lengths section_length info_length head.old }
    ensures length { length head.new ≡ 12 }
{
    fields! {
        head;
        section_length: 12, 12 = section_length;
        program_info_length: 84, 12 = info_length;
    }
}

// Puts the descriptor before the first one of program_info. Six bytes stand after the section, for which there is
// to be room.
fn insert(bytes: &mut [u8], descriptor: &[u8; SIZE])
    requires long { 22 ≤ length bytes.old }
    requires section { section_length_of bytes.old < 4090 }
    requires info { info_length_of bytes.old < 4090 }
    requires descriptor { length descriptor.now ≡ 6 }
    ensures { bytes.new ≡ section_with_descriptor descriptor.now (take (length bytes.old - 6) bytes.old) }
{
    fields! { bytes; section_length: 12, 12; program_info_length: 84, 12; }
    set_lengths(
        &mut bytes[..12],
        section_length + 6,
        program_info_length + 6,
    );
    bytes[12..].rotate_right(SIZE);
    bytes[12..18].copy_from_slice(descriptor);
    seal(bytes);
}

// Removes the first descriptor of program_info, which has six bytes, and writes stuffing after the section.
fn remove(bytes: &mut [u8])
    requires long { 22 ≤ length bytes.old }
    requires section { 6 ≤ section_length_of bytes.old }
    requires info { 6 ≤ info_length_of bytes.old }
    ensures { bytes.new ≡ section_without_descriptor bytes.old ++ replicate 6 255 }
{
    fields! { bytes; section_length: 12, 12; program_info_length: 84, 12; }
    set_lengths(
        &mut bytes[..12],
        section_length - 6,
        program_info_length - 6,
    );
    bytes[12..].rotate_left(SIZE);
    close(bytes);
}

// Seals all but the last six bytes, which become stuffing.
fn close(bytes: &mut [u8])
    requires { 10 ≤ length bytes.old }
    ensures { bytes.new ≡ with_crc (take (length bytes.old - 10) bytes.old) ++ replicate 6 255 }
{
    let (section, after) = bytes.split_at_mut(bytes.len() - SIZE);
    seal(section);
    after.fill(STUFFING);
}
