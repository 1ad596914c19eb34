ghost use Rattle.std.specs.Prelude.{◌≡◌, ◌<◌, ◌≤◌, OnOk, length};
ghost use Rattle.sd_tree_keys.specs.SetNames.{AreAscending};
ghost use Rattle.sd_message.specs.EmmSpelled.{names_in};
ghost use Rattle.sd_message.specs.declared.emm_format.TheConstants.{MOST_SETS};
ghost use Rattle.sd_head.specs.Packets.{period_packets, period_of_entries};

use sd_base::NoMemory;
use sd_message::{Emm, Entry, section_count, write_emm};
use sd_packet::SIZE;

/// Fills the list with the packets of the sections of period q, each with counter 0. They name the run where a name is
/// given.
pub fn pack_sections(
    packets: &mut Vec<[u8; SIZE]>,
    pid: u16,
    run: Option<u32>,
    q: u32,
    check: &[u8; 16],
    entries: &[Entry],
) -> Result<(), NoMemory>
    requires pid { pid < 8192 }
    requires few { length entries.now ≤ MOST_SETS }
    requires ascending { AreAscending (names_in entries.now) }
    ensures { OnOk result (packets.new.items ≡ period_packets pid (period_of_entries run q check.now entries.now)) }
{
    packets.clear();
    for index in 0..section_count(entries.len()) {
        let emm = Emm::of_period(run, q, check, entries, index);
        let packet = write_emm(&emm, pid, 0);
        if packets.push(*packet.bytes()).is_err() {
            return Err(NoMemory);
        }
    }
    Ok(())
}
