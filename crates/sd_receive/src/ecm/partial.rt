//! The parts of an ECM that arrived.

ghost use Rattle.std.specs.Prelude.{◌≤◌, length, vec_capacity, IfSome, ◌≡◌, ◌↔◌, ◌+◌, ◌∷◌, [], List, None, option_map};
ghost use Rattle.std.specs.Prelude.{if◌then◌else◌, IfOk, IfErr, IsTrue};
ghost use Rattle.std.proofs.Props.{props};
ghost use Rattle.std.specs.List.{list_all, list_any};
ghost use Rattle.sd_message.specs.declared.ecm_format.TheConstants.{POSITIONS, MOST_PLACES};
ghost use Rattle.sd_message.specs.EcmSpelled.{listed_places};
ghost use Rattle.sd_message.specs.EcmForm.{IsEcm};
ghost use Rattle.sd_message.specs.EcmParts.{ecm_head_of};
ghost use Rattle.sd_message.specs.declared.ecm_part.EcmPart.{EcmPart};
ghost use Rattle.sd_spec.specs.Stretches.{message_parts_with};
ghost use Rattle.sd_spec.specs.Offered.{part_fault, is_after as stands_after};
ghost use Rattle.sd_spec.specs.Counting.{is_equal_place, says_nothing_new as nothing_new};
ghost use Rattle.sd_receive.specs.PartialEcm.{next_run, IsNextPart, IsPart, IsGathered, GatherOutcome};
ghost use Rattle.sd_receive.specs.Again.{has_all_of};

use sd_base::NoMemory;
use sd_message::{EcmFault, EcmHead, EcmPart, MOST_PLACES, Place};
use std::alloc::Global;

/// The parts of one control message that arrived one after the other, from part 0 on: the newest, and the positions of
/// all.
#[derive(Drop)]
pub struct PartialEcm {
    pub(crate) part: Option<EcmPart>,
    pub(crate) places: Vec<Place>,
    ghost counted: { IfSome part (λ kept. kept.count ≤ POSITIONS) } by { Prim.hlevel props },
    ghost few: { length places.items ≤ MOST_PLACES },
    ghost room: { MOST_PLACES ≤ vec_capacity places },
}

impl PartialEcm {
    /// Before any part. Room for all positions of a message is allocated here.
    #[tactic(auto, using(crate::proofs::Gathering::none_gathered))]
    pub fn new(alloc: Global) -> Result<PartialEcm, NoMemory>
        ensures { IfOk result (λ partial. IsGathered [] partial.part partial.places.items) }
    {
        match Vec::with_capacity(alloc, MOST_PLACES) {
            Ok(places) => Ok(PartialEcm { part: None, places }),
            Err(_) => Err(NoMemory),
        }
    }

    /// Forgets the parts.
    #[tactic(auto, using(crate::proofs::Gathering::none_gathered))]
    pub fn reset(&mut self)
        ensures gathered { IsGathered [] self.new.part self.new.places.items }
        ensures places { self.new.places.items ≡ [] }
    {
        self.part = None;
        self.places.clear();
    }

    /// Takes the parts of another message instead of its own. Nothing is allocated.
    pub fn copy(&mut self, other: &PartialEcm)
        ensures part { self.new.part ≡ other.now.part }
        ensures places { self.new.places.items ≡ other.now.places.items }
    {
        self.places.clear();
        self.places.extend_from_slice(&other.places).unwrap();
        self.part = other.part;
    }

    /// Whether there is no part.
    pub fn is_empty(&self) -> bool
        ensures { IsTrue result ↔ (self.now.part ≡ None) }
    {
        self.part.is_none()
    }

    /// What the newest part says of its message, but for the positions.
    pub fn head(&self) -> Option<EcmHead>
        ensures { result ≡ option_map ecm_head_of self.now.part }
    {
        self.part.as_ref().map(EcmPart::head)
    }

    /// Takes a part of a later message than the newest complete one, or says what is wrong with it. Part 0 begins a
    /// message, the part that is awaited next is added, and any other drops what was collected. Nothing is allocated.
    /// A part with which something is wrong changes nothing.
    pub fn take(&mut self, part: &EcmPart) -> Result<(), EcmFault>
        requires { IsEcm part.now }
        ensures value { (run : List EcmPart) → IsGathered run self.old.part self.old.places.items →
            GatherOutcome (next_run run part.now) self.new.part self.new.places.items result }
        ensures unchanged { IfErr result (λ _. self.new ≡ self.old) }
    {
        if part.part == 0 {
            self.reset();
            self.put(part);
            return Ok(());
        }
        if self.goes_on(part) {
            return self.add(part);
        }
        self.reset();
        Ok(())
    }

    // Whether the part is the next of the message that is collected.
    fn goes_on(&self, part: &EcmPart) -> bool
        ensures value { (run : List EcmPart) → IsGathered run self.now.part self.now.places.items →
            message_parts_with part.now run ≡ (if result then part.now ∷ run else []) }
        ensures next { (run : List EcmPart) → IsGathered run self.now.part self.now.places.items → IsTrue result →
            IsNextPart run part.now }
    {
        match &self.part {
            Some(before) => {
                before.number == part.number && u16::from(before.part) + 1 == u16::from(part.part)
            }
            None => false,
        }
    }

    // Adds the next part, if nothing is wrong with it.
    fn add(&mut self, part: &EcmPart) -> Result<(), EcmFault>
        requires { IsEcm part.now }
        ensures value { (run : List EcmPart) → IsGathered run self.old.part self.old.places.items →
            IsNextPart run part.now → GatherOutcome (part.now ∷ run) self.new.part self.new.places.items result }
        ensures unchanged { IfErr result (λ _. self.new ≡ self.old) }
    {
        if let Some(fault) = self.fault(part) {
            return Err(fault);
        }
        self.put(part);
        Ok(())
    }

    // What is wrong with the part as the next one.
    #[tactic(auto, using(crate::proofs::Gathering::few))]
    fn fault(&self, part: &EcmPart) -> Option<EcmFault>
        requires { IsEcm part.now }
        ensures value { (run : List EcmPart) → IsGathered run self.now.part self.now.places.items →
            result ≡ part_fault (part.now ∷ run) }
        ensures room { result ≡ None → length self.now.places.items + length (listed_places part.now) ≤ MOST_PLACES }
    {
        if let Some(before) = &self.part {
            if !before.same_header(part) {
                return Some(EcmFault::Mixed);
            }
            if !is_after(before, part) {
                return Some(EcmFault::Order);
            }
        }
        if self.places.len() + part.listed().len() > MOST_PLACES {
            return Some(EcmFault::Count);
        }
        None
    }

    // Adds the part.
    fn put(&mut self, part: &EcmPart)
        requires form { IsEcm part.now }
        requires room { length self.old.places.items + length (listed_places part.now) ≤ MOST_PLACES }
        ensures { (run : List EcmPart) → IsGathered run self.old.part self.old.places.items →
            IsNextPart run part.now → part_fault (part.now ∷ run) ≡ None →
            IsGathered (part.now ∷ run) self.new.part self.new.places.items }
    {
        self.places.extend_from_slice(positions_of(part)).unwrap();
        self.part = Some(*part);
    }

    // Whether a part says nothing new after those that arrived.
    #[tactic(auto, using(crate::proofs::Asked::none_to_say, crate::proofs::Asked::says_otherwise, crate::proofs::Asked::says_as_all))]
    pub fn says_nothing_new(&self, part: &EcmPart) -> bool
        requires form { IsEcm part.now }
        ensures { (run : List EcmPart) → IsGathered run self.now.part self.now.places.items →
            result ≡ nothing_new part.now run }
    {
        match &self.part {
            Some(last) => last.same_header(part) && self.has_all(last, part),
            None => false,
        }
    }

    // Whether the part isn't behind another one, and each of its positions is among those that arrived.
    #[tactic(auto, using(crate::proofs::Gathering::few))]
    fn has_all(&self, last: &EcmPart, part: &EcmPart) -> bool
        requires form { IsEcm part.now }
        ensures { result ≡ has_all_of part.now last.now self.now.places.items }
    {
        part.part <= last.part && are_among(part.listed(), &self.places)
    }
}

// Whether every PID of the part is above every one of the part before it.
#[tactic(auto, using(crate::proofs::Gathering::few))]
fn is_after(before: &EcmPart, part: &EcmPart) -> bool
    requires few { before.now.count ≤ POSITIONS }
    requires form { IsEcm part.now }
    ensures { IsEcm before.now → (run : List EcmPart) → result ≡ stands_after part.now (before.now ∷ run) }
{
    match (before.listed().last(), part.listed().first()) {
        (Some(last), Some(first)) => last.pid < first.pid,
        _ => true,
    }
}

// The positions of the part.
#[tactic(auto, using(crate::proofs::Gathering::few))]
fn positions_of(part: &EcmPart) -> &[Place]
    requires { IsEcm part.now }
    ensures value { result.now ≡ listed_places part.now }
    ensures form { IsPart part.now }
{
    let positions: &[Place] = &part.positions;
    &positions[..usize::from(part.count)]
}

// Whether each of these places is one of the others.
fn are_among(places: &[Place], others: &[Place]) -> bool
    ensures { result ≡ list_all (λ place. list_any (is_equal_place place) others.now) places.now }
{
    places.iter().all(|place| is_among(place, others))
}

// Whether the place is one of these.
fn is_among(place: &Place, others: &[Place]) -> bool
    ensures { result ≡ list_any (is_equal_place place.now) others.now }
{
    others.iter().any(|other| other == place)
}
