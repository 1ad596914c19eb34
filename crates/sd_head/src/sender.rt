ghost use Rattle.std.specs.Prelude.{◌≤◌, vec_capacity};
ghost use Rattle.sd_message.specs.declared.ecm_format.TheConstants.{MOST_PLACES};

use crate::counter::Counter;
use sd_message::Place;
use sd_packet::Packet;

/// Sends the site's CAT, EMMs and ECMs. The continuity counters of each PID start at 0 (this project, docs/FORMATS.md,
/// Sections).
#[derive(Drop)]
pub struct Sender {
    pub(crate) cat: Packet,
    pub(crate) cats: Counter,
    pub(crate) emms: Counter,
    pub(crate) ecms: Counter,
    // Room for the positions of a message.
    pub(crate) places: Vec<Place>,
    pub ghost places_room: { MOST_PLACES ≤ vec_capacity places },
}
