ghost use Rattle.std.specs.Prelude.{◌≢◌, ◌≤◌, IfOk, length};
ghost use Rattle.sd_site_cards.specs.SiteFields.{site_fields_of};
ghost use Rattle.sd_command_base.specs.Outside.{depot_state};
ghost use Rattle.sd_command_base.specs.Reads.{FilesOutcome};
ghost use Rattle.sd_command_base.specs.Shown.{shown_word};
ghost use Rattle.sd_run_broadcasts.specs.Field.{inputs_meaning};

use crate::field_clear::read_clear;
use sd_command_base::{LimitKind, Status, Word, read_low_site};
use sd_packet::Packet;
use sd_ports::Depot;
use sd_site_cards::Site;
use std::alloc::Global;

/// The greatest height of a field's tree.
pub const MOST_HEIGHT: u8 = 6;

/// Reads the site, whose tree must be of height at most 6, and then the packets of the clear stream.
pub fn read_inputs<D: Depot>(
    alloc: Global,
    depot: &mut D,
    site: Word<'_>,
    clear: Word<'_>,
) -> Result<(Site, Vec<Packet>), Status>
    requires { site.number ≢ clear.number }
    ensures value { FilesOutcome (λ inputs. record { site = site_fields_of inputs.0; clear = inputs.1.items })
        (inputs_meaning (shown_word site.entry) (shown_word clear.entry))
        (depot_state D.Depot depot.old) (depot_state D.Depot depot.new) result }
    ensures low { IfOk result (λ inputs. inputs.0.height ≤ 6) }
    ensures few { IfOk result (λ inputs. length inputs.1.items ≤ 16384) }
{
    let site = read_low_site(alloc, depot, site, MOST_HEIGHT, LimitKind::FieldHeight)?;
    let clear = read_clear(alloc, depot, clear)?;
    Ok((site, clear))
}
