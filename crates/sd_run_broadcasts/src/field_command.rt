ghost use Rattle.std.specs.Prelude.{◌≡◌, ◌≢◌, ◌≤◌, All, None, length, string_bytes, true};
ghost use Rattle.sd_site_cards.specs.SiteFields.{site_fields_of};
ghost use Rattle.sd_spec.specs.Events.{is_of};
ghost use Rattle.sd_command_base.specs.Outside.{io_state_at};
ghost use Rattle.sd_command_base.specs.Outcome.{Implements, status_of};
ghost use Rattle.sd_command_base.specs.Printed.{MemoryOutcome};
ghost use Rattle.sd_command_base.specs.Shown.{shown_word};
ghost use Rattle.sd_run_broadcasts.specs.Field.{field_meaning, field_text, text_in};
ghost use Rattle.sd_run_broadcasts.specs.FieldPlayed.{all_done};

use crate::field_inputs::read_inputs;
use crate::field_lines::lines;
use crate::field_play::play;
use crate::field_script::read_events;
use sd_base::Steps;
use sd_command_base::{Status, Word, print_text};
use sd_field::Field;
use sd_packet::Packet;
use sd_ports::{Depot, Sink};
use sd_site_cards::Site;
use sd_spec::Event;
use sd_tree_keys::Height;
use std::alloc::Global;
use std::sync::ledger::Ledger;

/// Runs `field SITE CLEAR SCRIPT` [this project, docs/FORMATS.md, Field]. All events are done before a line is printed.
///
/// In memory are the clear packets and the script's events, room for 72 packets for each clear packet, and for each
/// leaf a receiver and room for all clear packets.
#[inline(never)]
pub fn field<D: Depot, P: Sink, L: Ledger>(
    alloc: Global,
    depot: &mut D,
    print: &mut P,
    site: Word<'_>,
    clear: Word<'_>,
    script: Word<'_>,
    steps: &mut Steps<L>,
) -> Result<(), Status>
    requires { (site.number ≢ clear.number) × (site.number ≢ script.number) × (clear.number ≢ script.number) }
    ensures { Implements (field_meaning (shown_word site.entry) (shown_word clear.entry) (shown_word script.entry))
        (io_state_at D.Depot P.Sink depot.old print.old steps.old)
        (io_state_at D.Depot P.Sink depot.new print.new steps.new) (status_of result) }
{
    let (site, clear) = read_inputs(alloc, depot, site, clear)?;
    let events = read_events(alloc, depot, script, site.height)?;
    let text = text_of(alloc, site, clear, events, steps)?;
    print_text(print, text.as_bytes())
}

/// Runs all events of a field, and returns its lines.
fn text_of<L: Ledger>(
    alloc: Global,
    site: Site,
    clear: Vec<Packet>,
    events: Vec<Event>,
    steps: &mut Steps<L>,
) -> Result<String, Status>
    requires height { site.height ≤ 6 }
    requires packets { length clear.items ≤ 16384 }
    requires events { length events.items ≤ 524288 }
    requires leaves { All (λ event. is_of site.height event ≡ true) events.items }
    ensures { MemoryOutcome (λ text. string_bytes text) (field_text (site_fields_of site) clear.items events.items)
        result }
{
    let h = site.height;
    let mut field = Field::new(alloc, site, clear, events, steps)?;
    text_after(alloc, &mut field, h, steps)
}

/// Runs all events of a new field of this height, and returns its lines.
fn text_after<L: Ledger>(
    alloc: Global,
    field: &mut Field,
    h: Height,
    steps: &mut Steps<L>,
) -> Result<String, Status>
    requires height { h ≡ field.old.site.height }
    requires new { field.old.done ≡ 0 }
    requires calm { field.old.failed ≡ None }
    ensures { MemoryOutcome (λ text. string_bytes text) (text_in (all_done field.old)) result }
{
    play(field, steps)?;
    Ok(lines(alloc, field, h)?)
}
