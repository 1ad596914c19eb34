ghost use Rattle.std.specs.Prelude.{◌≡◌, ◌<◌, ◌↔◌, ◌==◌, false, IsNone, IfSome, Some, None, option_map, find, length};
ghost use Rattle.std.specs.Prelude.{if◌then◌else◌};
ghost use Rattle.sd_psi.specs.OurCat.{cat_descriptor as descriptor_of, cat_tuning as tuning_of_cat};
ghost use Rattle.sd_psi.specs.OurCat.{is_for, is_tuning, tuning_in};
ghost use Rattle.sd_psi.specs.Tables.{descriptors_of};

use crate::cat::cat_of;
use crate::descriptor::{CA_TAG, CaDescriptor, Descriptor, Descriptors};
use sd_base::fields;
use sd_packet::{Packet, is_positional};
use sd_section::Header;

/// The PID of the CAT (ISO/IEC 13818-1, 2.4.3.3).
pub const CAT_PID: u16 = 1;

/// What tells the project's CAT from other sections; its extension's bits are reserved (ISO/IEC 13818-1, 2.4.4.6).
pub const CAT_HEADER: Header = Header {
    table_id: 1,
    extension: 0xFFFF,
    number: 0,
    last_number: 0,
};

/// The PIDs of a broadcast's messages.
#[derive(Clone, Copy, PartialEq, Eq)]
pub struct Tuning {
    /// The PID of entitlements.
    pub emm: u16,
    /// The PID of control messages.
    pub ecm: u16,
}

/// The body of the project's CAT: its one descriptor, which names this conditional access system and both PIDs (this
/// project, docs/FORMATS.md, Tables).
pub fn cat_descriptor(ca: u16, tuning: Tuning) -> [u8; 8]
    requires emm { tuning.emm < 8192 }
    requires ecm { tuning.ecm < 8192 }
    ensures { result ≡ descriptor_of ca tuning.emm tuning.ecm }
{
    let [ca_high, ca_low] = ca.to_be_bytes();
    let [emm_high, emm_low] = tuning.emm.to_be_bytes();
    let [ecm_high, ecm_low] = tuning.ecm.to_be_bytes();
    [
        CA_TAG,
        6,
        ca_high,
        ca_low,
        0xE0 + emm_high,
        emm_low,
        0xE0 + ecm_high,
        ecm_low,
    ]
}

/// The PIDs that a packet gives a receiver of this conditional access system, if it is a CAT by itself with a
/// CA_descriptor for the system (this project, docs/FORMATS.md, Receiver).
#[tactic(auto, using(crate::proofs::Tunings::other_pid, crate::proofs::Tunings::no_payload, crate::proofs::Tunings::faulty, crate::proofs::Tunings::taken))]
pub fn cat_tuning(ca: u16, packet: &Packet) -> Option<Tuning>
    ensures { result ≡ tuning_of_cat ca packet.now }
{
    if packet.pid() != CAT_PID || packet.payload().is_empty() {
        return None;
    }
    match cat_of(packet) {
        Ok(cat) => first_tuning(ca, cat.descriptors()),
        Err(_) => None,
    }
}

// The PIDs in the first of the descriptors that is for the system.
fn first_tuning(ca: u16, descriptors: Descriptors) -> Option<Tuning>
    ensures { result ≡ option_map tuning_in (find (is_for ca) (descriptors_of descriptors.entry.bytes.now)) }
{
    let mut rest = descriptors;
    while let Some(descriptor) = rest.next() {
        if let Some(tuning) = own_tuning(ca, &descriptor) {
            return Some(tuning);
        }
    }
    None
}

// The PIDs in a descriptor, if it is for the system.
#[tactic(auto, using(crate::proofs::Tunings::not_ca, crate::proofs::Tunings::not_eight, crate::proofs::Tunings::is_for_system))]
fn own_tuning(ca: u16, descriptor: &Descriptor) -> Option<Tuning>
    ensures { result ≡ (if is_for ca descriptor.now.bytes.now then Some (tuning_in descriptor.now.bytes.now)
        else None) }
{
    let descriptor = descriptor.ca()?;
    let tuning = pids_in(&descriptor)?;
    if descriptor.system() == ca && is_good(tuning) {
        Some(tuning)
    } else {
        None
    }
}

// Both PIDs in a descriptor, if it has the length of one with both.
#[tactic(auto, using(crate::proofs::Tunings::private_field), unfolding(crate::specs::OurCat::tuning_in))]
fn pids_in(descriptor: &CaDescriptor) -> Option<Tuning>
    ensures none { IsNone result ↔ ((length descriptor.now.bytes.now == 8) ≡ false) }
    ensures value { IfSome result (λ tuning. tuning ≡ tuning_in descriptor.now.bytes.now) }
{
    let private = descriptor.private();
    if private.len() != 2 {
        return None;
    }
    fields! { private; ecm: 3, 13; }
    Some(Tuning {
        emm: descriptor.pid(),
        ecm: ecm as u16,
    })
}

// Whether both PIDs have positions, and they differ.
fn is_good(tuning: Tuning) -> bool
    ensures { result ≡ is_tuning tuning }
{
    is_positional(tuning.emm) && is_positional(tuning.ecm) && tuning.emm != tuning.ecm
}
