ghost use Rattle.std.specs.Prelude.{◌≡◌, IfOk, Some, option_map, string_bytes};
ghost use Rattle.serde_json.specs.View.{view};
ghost use Rattle.sd_message.specs.EmmJudged.{emm_read};
ghost use Rattle.sd_message.specs.EcmJudged.{ecm_read};
ghost use Rattle.sd_site_cards.specs.SiteFields.{site_fields_of};
ghost use Rattle.sd_run_streams.specs.MessageLines.{ecm_told, emm_told, message_data, message_line};

use crate::ecm::ecm_value;
use crate::emm::emm_value;
use crate::message_fault::fault_value;
use sd_command_base::as_line;
use sd_message::{read_ecm, read_emm};
use sd_packet::Packet;
use sd_site_cards::Site;
use sd_tree_keys::Height;
use serde_json::Value;
use std::alloc::{AllocError, Global};

/// The line of the packet of this number, without bytes if the packet has no message of the site.
///
/// The line is compact JSON with the keys in ascending order, and a line feed.
#[tactic(auto, using(crate::proofs::MessagesPlain::no_float), unfolding(crate::specs::MessageLines::message_line))]
pub(crate) fn line_of(
    alloc: Global,
    site: &Site,
    number: u64,
    packet: &Packet,
) -> Result<String, AllocError>
    ensures { IfOk result (λ text. string_bytes text ≡ message_line (site_fields_of site.now) number packet.now) }
{
    match message_value(alloc, site, number, packet)? {
        Some(value) => as_line(value.to_string(alloc)?),
        None => Ok(String::new(alloc)),
    }
}

// What is shown of a packet.
#[tactic(auto, unfolding(crate::specs::MessageLines::message_data))]
fn message_value(
    alloc: Global,
    site: &Site,
    number: u64,
    packet: &Packet,
) -> Result<Option<Value>, AllocError>
    ensures { IfOk result (λ found. option_map view found ≡ message_data (site_fields_of site.now) number packet.now) }
{
    let pid = packet.pid();
    if pid == site.emm {
        told_emm(alloc, number, pid, site.height, packet)
    } else if pid == site.ecm {
        told_ecm(alloc, number, pid, packet)
    } else {
        Ok(None)
    }
}

// What is shown of a packet as entitlements.
fn told_emm(
    alloc: Global,
    number: u64,
    pid: u16,
    h: Height,
    packet: &Packet,
) -> Result<Option<Value>, AllocError>
    ensures { IfOk result (λ found. option_map view found ≡ emm_told number pid (emm_read h packet.now)) }
{
    match read_emm(h, packet) {
        Ok(None) => Ok(None),
        Ok(Some(emm)) => Ok(Some(emm_value(alloc, number, pid, &emm)?)),
        Err(fault) => Ok(Some(fault_value(alloc, fault.name(), "emm", number, pid)?)),
    }
}

// What is shown of a packet as a part of a control message.
fn told_ecm(
    alloc: Global,
    number: u64,
    pid: u16,
    packet: &Packet,
) -> Result<Option<Value>, AllocError>
    ensures { IfOk result (λ found. option_map view found ≡ ecm_told number pid (ecm_read packet.now)) }
{
    match read_ecm(packet) {
        Ok(None) => Ok(None),
        Ok(Some(part)) => Ok(Some(ecm_value(alloc, number, pid, &part)?)),
        Err(fault) => Ok(Some(fault_value(alloc, fault.name(), "ecm", number, pid)?)),
    }
}
