ghost use Rattle.std.specs.Prelude.{◌↔◌, ◌<◌, IsTrue};
ghost use Rattle.sd_message.specs.EcmForm.{ArePidsAscending};

use crate::ecm_part::Place;

/// Whether each PID is above all before it.
pub fn are_ascending(places: &[Place]) -> bool
    ensures { IsTrue result ↔ ArePidsAscending places.now }
{
    for k in 1..places.len() {
        if !is_before(&places[k - 1], &places[k]) {
            return false;
        }
    }
    true
}

// Whether the second PID is above the first.
fn is_before(first: &Place, second: &Place) -> bool
    ensures { IsTrue result ↔ (first.now.pid < second.now.pid) }
{
    first.pid < second.pid
}
