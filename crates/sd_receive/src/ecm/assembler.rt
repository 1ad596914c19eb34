//! How parts become an ECM, which must not go back behind the one before it.

ghost use Rattle.std.specs.Prelude.{◌≡◌, ◌∷◌, [], List, Option, IfOk, true, nat_lt};
ghost use Rattle.std.specs.List.{list_any};
ghost use Rattle.std.specs.Option.{option_map_or};
ghost use Rattle.sd_message.specs.EcmForm.{IsEcm, ArePidsAscending};
ghost use Rattle.sd_message.specs.EcmParts.{Message, message_of};
ghost use Rattle.sd_message.specs.declared.ecm_part.EcmPart.{EcmPart};
ghost use Rattle.sd_spec.specs.Heard.{Heard, Controls};
ghost use Rattle.sd_spec.specs.Stretches.{current as current_period, exceeds, newest_message};
ghost use Rattle.sd_spec.specs.Offered.{is_back as back, is_before};
ghost use Rattle.sd_message.specs.declared.ecm_message.EcmHead.{EcmHead};
ghost use Rattle.sd_spec.specs.Confirmed.{position_in};
ghost use Rattle.sd_receive.specs.EcmAssembler.{IsMessageKept, IsCollected, IsComplete, PartOutcome};

use crate::ecm::partial::PartialEcm;
use crate::ecm::{EcmAssembler, EcmProgress};
use sd_base::NoMemory;
use sd_message::{EcmFault, EcmHead, EcmPart, MOST_PLACES, Place};
use std::alloc::Global;
use std::mem::swap;

impl EcmAssembler {
    /// Before any part. All memory is allocated here.
    pub fn new(alloc: Global) -> Result<EcmAssembler, NoMemory>
        ensures { IfOk result (λ state. IsCollected [] state) }
    {
        let partial = PartialEcm::new(alloc)?;
        let coming = PartialEcm::new(alloc)?;
        match Vec::with_capacity(alloc, MOST_PLACES) {
            Ok(places) => Ok(EcmAssembler {
                partial,
                coming,
                last: None,
                places,
            }),
            Err(_) => Err(NoMemory),
        }
    }

    /// Takes a part of a control message, or says why it is refused. `current` is the current entitlement period. After
    /// `Complete`, `settle` keeps the message. Without it, and after a refusal, what is kept is as if the part had not
    /// come [this project, docs/FORMATS.md, Receiver].
    pub fn take(&mut self, current: u32, part: &EcmPart) -> Result<EcmProgress, EcmFault>
        requires form { IsEcm part.now }
        ensures value { (past : List Heard) → IsCollected past self.old → current_period past ≡ current →
            PartOutcome past part.now self.new result }
    {
        if !self.counts(part) {
            return Ok(EcmProgress::Waits);
        }
        if part.part == part.last_part {
            return self.end(current, part);
        }
        if let Err(fault) = self.partial.take(part) {
            return Err(fault);
        }
        Ok(EcmProgress::Waits)
    }

    /// Keeps the message that the newest part completed, instead of the one before it.
    pub fn settle(&mut self)
        ensures places { self.new.places.items ≡ self.old.coming.places.items }
        ensures value { (past : List Heard) (part : EcmPart) (head : EcmHead) → IsComplete past part head self.old →
            IsCollected (Controls part ∷ past) self.new }
    {
        self.places.clear();
        swap(&mut self.places, &mut self.coming.places);
        self.last = self.coming.head();
        self.partial.reset();
    }

    /// Forgets all messages and parts.
    pub fn reset(&mut self)
        ensures { IsCollected [] self.new }
    {
        self.partial.reset();
        self.last = None;
        self.places.clear();
    }

    /// What the newest complete message says, but for its positions; `None` if there is none.
    pub fn last(&self) -> Option<EcmHead>
        ensures { result ≡ self.now.last }
    {
        self.last
    }

    /// The PIDs and positions of the newest complete message.
    pub fn places(&self) -> &[Place]
        ensures { result.now ≡ self.now.places.items }
    {
        &self.places
    }

    /// The PIDs and positions of the message that the newest part completes.
    pub fn coming(&self) -> &[Place]
        ensures { result.now ≡ self.now.coming.places.items }
    {
        &self.coming.places
    }

    // Takes the last part of a message that counts. The parts are put together apart from those that arrived.
    fn end(&mut self, current: u32, part: &EcmPart) -> Result<EcmProgress, EcmFault>
        requires form { IsEcm part.now }
        requires last { part.now.part ≡ part.now.last_part }
        ensures value { (past : List Heard) → IsCollected past self.old → current_period past ≡ current →
            exceeds (newest_message past).message part.now ≡ true → PartOutcome past part.now self.new result }
    {
        self.coming.copy(&self.partial);
        if let Err(fault) = self.coming.take(part) {
            return Err(fault);
        }
        if self.coming.is_empty() {
            self.partial.reset();
            return Ok(EcmProgress::Waits);
        }
        let head = part.head();
        if self.is_back(current, &head) {
            return Err(EcmFault::Back);
        }
        Ok(EcmProgress::Complete(head))
    }

    // Whether the part is of a later message than the newest complete one.
    fn counts(&self, part: &EcmPart) -> bool
        ensures { (message : Option Message) → IsMessageKept message self.now.last self.now.places.items →
            result ≡ exceeds message part.now }
    {
        match &self.last {
            Some(last) => last.number < part.number,
            None => true,
        }
    }

    // Whether a message is of an earlier period than the current one, or goes back behind the newest complete one.
    #[tactic(auto, unfolding(sd_spec::specs::Offered::is_back))]
    fn is_back(&self, current: u32, head: &EcmHead) -> bool
        ensures { (past : List Heard) → IsMessageKept (newest_message past).message self.now.last self.now.places.items
            →
            ArePidsAscending self.now.coming.places.items → current_period past ≡ current →
            result ≡ back past (message_of head.now self.now.coming.places.items) }
    {
        if head.period < current {
            return true;
        }
        match &self.last {
            Some(last) => goes_back(head, &self.coming.places, last, &self.places),
            None => false,
        }
    }
}

/// Whether a message goes back behind the one before it, `last`: its period, its control word, its number of clear
/// packets or some position is lower, or it lacks a PID [this project, docs/FORMATS.md, Receiver].
#[tactic(auto, unfolding(sd_spec::specs::Offered::is_before))]
pub fn goes_back(head: &EcmHead, coming: &[Place], last: &EcmHead, places: &[Place]) -> bool
    ensures { ArePidsAscending coming.now → ArePidsAscending places.now →
        result ≡ is_before (message_of head.now coming.now) (message_of last.now places.now) }
{
    head.period < last.period
        || head.word < last.word
        || head.clear < last.clear
        || places_go_back(coming, places)
}

// Whether some PID of `places` has no position in `coming`, or a lower one.
fn places_go_back(coming: &[Place], places: &[Place]) -> bool
    ensures { ArePidsAscending coming.now → ArePidsAscending places.now → result ≡ list_any (λ place.
        option_map_or (λ position. nat_lt position place.position) (position_in coming.now place.pid) true) places.now }
{
    let mut met = 0;
    for place in coming {
        if met < places.len() && places[met].pid == place.pid {
            if place.position < places[met].position {
                return true;
            }
            met += 1;
        }
    }
    met < places.len()
}
