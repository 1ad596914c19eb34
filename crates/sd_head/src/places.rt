ghost use Rattle.std.specs.Prelude.{◌≡◌, ◌≤◌, ℕ, List, vec_len, vec_capacity};
ghost use Rattle.sd_message.specs.declared.ecm_format.TheConstants.{MOST_PLACES};
ghost use Rattle.sd_spec.specs.Messages.{places_after};
ghost use Rattle.sd_head.specs.After.{IsClearAfter};

use crate::clear::Clear;
use sd_message::Place;

impl Clear {
    /// Writes the positions of all PIDs that have moved in place of these, ascending by PID.
    pub fn write_places(&self, places: &mut Vec<Place>)
        requires { MOST_PLACES ≤ vec_capacity places.old }
        ensures value { (before : List (List ℕ)) → IsClearAfter before self.now →
            places.new.items ≡ places_after before }
        ensures few { vec_len places.new ≤ MOST_PLACES }
        ensures room { MOST_PLACES ≤ vec_capacity places.new }
    {
        places.clear();
        for &pid in &self.pids {
            let position = self.position_of(pid);
            places.push(Place { pid, position }).unwrap();
        }
    }
}
