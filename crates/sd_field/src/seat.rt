ghost use Rattle.std.specs.Prelude.{◌≡◌, ◌↔◌, ◌-◌, ◌^◌, ◌<◌, ◌≤◌, ◌++◌, ◌∷◌, [], ℕ, List, get_or, length, slice_get};
ghost use Rattle.std.specs.Prelude.{IfOk, IfSome, IsSome, IsErr, OnOk, false, is_some};
ghost use Rattle.std.specs.List.{concat};
ghost use Rattle.sd_site_cards.specs.CardFields.{CardFields, card_of};
ghost use Rattle.sd_engine.specs.Stream.{packets_of};
ghost use Rattle.sd_spec.specs.Plan.{Plan};
ghost use Rattle.sd_receive.specs.Receiving.{HasReceived, IsCountable, MayReceive, receiver_card};
ghost use Rattle.sd_spec.specs.declared.event.Event.TheVariants.{Lose, Off, Offer, On};
ghost use Rattle.sd_spec.specs.Watch.{Watch, present, stream, watch_after_event, written};
ghost use Rattle.sd_field.specs.Heard.{HasStoreRoom};
ghost use Rattle.sd_field.specs.Seats.{AreNew, IsNewSeat, IsSeated};

use crate::hear::hear;
use sd_base::{NoMemory, Steps};
use sd_packet::{Packet, SIZE};
use sd_ports::MemSink;
use sd_receive::Receiver;
use sd_site_cards::{Card, Site};
use sd_tree_keys::Leaf;
use std::alloc::Global;
use std::sync::ledger::Ledger;

/// A leaf's seat in a field: its receiver if that is on, the number of sent packets that it has passed, and all that
/// its receivers wrote.
#[derive(Drop)]
pub struct Seat {
    pub(crate) receiver: Option<Receiver>,
    pub(crate) cursor: usize,
    pub(crate) written: MemSink,
}

/// A sink in memory with room for `room` bytes.
pub(crate) fn sink_of(alloc: Global, room: usize) -> Result<MemSink, NoMemory>
    ensures held { IfOk result (λ sink. sink.held ≡ []) }
    ensures room { IfOk result (λ sink. HasStoreRoom room sink) }
{
    MemSink::new(alloc, room, usize::MAX, Vec::new(alloc))
}

/// A new receiver with the card of a leaf.
fn receiver_of<L: Ledger>(
    alloc: Global,
    site: &Site,
    u: Leaf,
    steps: &mut Steps<L>,
) -> Result<Receiver, NoMemory>
    requires leaf { u < 2 ^ site.now.height }
    ensures value { IfOk result (HasReceived []) }
    ensures card { IfOk result (λ receiver. receiver_card receiver
        ≡ card_of site.now.master site.now.ca site.now.height u) }
    ensures live { IfOk result MayReceive }
{
    let card = Card::make(alloc, site, u, steps)?;
    Receiver::new(alloc, card)
}

impl Seat {
    /// The seat of a leaf whose receiver is on and new, with room for `room` bytes.
    pub fn new<L: Ledger>(
        alloc: Global,
        site: &Site,
        u: Leaf,
        room: usize,
        steps: &mut Steps<L>,
    ) -> Result<Seat, NoMemory>
        requires leaf { u < 2 ^ site.now.height }
        ensures { IfOk result (IsNewSeat (card_of site.now.master site.now.ca site.now.height u) room) }
    {
        Ok(Seat {
            receiver: Some(receiver_of(alloc, site, u, steps)?),
            cursor: 0,
            written: sink_of(alloc, room)?,
        })
    }

    /// Passes the next packet that was sent, which is offered to the receiver if that is on.
    pub fn pass<L: Ledger>(&mut self, packet: &Packet, steps: &mut Steps<L>) -> Result<(), NoMemory>
        requires live { IfSome self.old.receiver MayReceive }
        requires few { self.old.cursor < 2 ^ 64 - 1 }
        ensures seated { (plan : Plan) (card : CardFields) (clear : List (List ℕ)) (total u n : ℕ) (w : Watch) →
            IsCountable (present plan clear w) → w.cursor < n →
            packet.now ≡ get_or (stream plan clear) w.cursor [] → IsSeated plan card clear total w self.old →
            OnOk result (IsSeated plan card clear total (watch_after_event u n (Offer u) w) self.new) }
        ensures there { IsErr result → IsSome self.new.receiver ↔ IsSome self.old.receiver }
        ensures full { (plan : Plan) (card : CardFields) (clear : List (List ℕ)) (total u n : ℕ) (w : Watch) →
            IsErr result → IsCountable (present plan clear w) → w.cursor < n →
            packet.now ≡ get_or (stream plan clear) w.cursor [] → IsSeated plan card clear total w self.old →
            total < length (concat (written plan card clear (watch_after_event u n (Offer u) w))) }
    {
        if let Some(receiver) = &mut self.receiver {
            hear(receiver, packet, &mut self.written, steps)?;
        }
        self.cursor += 1;
        Ok(())
    }
}

/// Packet i of a stream that has all packets before it, if it has this one.
pub fn packet_at(bytes: &[u8], i: usize) -> Option<Packet>
    requires before { i ≤ length (packets_of bytes.now) }
    ensures value { result ≡ slice_get (packets_of bytes.now) i }
    ensures few { IsSome result → i < 2 ^ 64 - 1 }
{
    if i >= bytes.len() / SIZE {
        return None;
    }
    let rest = &bytes[SIZE * i..];
    let piece = rest.first_chunk::<SIZE>()?;
    Packet::new(*piece)
}

/// Passes the next packet of what was sent, if one is left.
pub fn pass_next<L: Ledger>(
    seat: &mut Seat,
    sent: &[u8],
    steps: &mut Steps<L>,
) -> Result<(), NoMemory>
    requires live { IfSome seat.old.receiver MayReceive }
    requires behind { seat.old.cursor ≤ length (packets_of sent.now) }
    ensures seated { (plan : Plan) (card : CardFields) (clear : List (List ℕ)) (total u : ℕ) (w : Watch) →
        IsCountable (present plan clear w) → packets_of sent.now ≡ stream plan clear →
        IsSeated plan card clear total w seat.old →
        OnOk result (IsSeated plan card clear total (watch_after_event u (length (packets_of sent.now)) (Offer u) w)
        seat.new) }
    ensures full { (plan : Plan) (card : CardFields) (clear : List (List ℕ)) (total u : ℕ) (w : Watch) →
        IsErr result → IsCountable (present plan clear w) → packets_of sent.now ≡ stream plan clear →
        IsSeated plan card clear total w seat.old →
        total < length (concat (written plan card clear (watch_after_event u (length (packets_of sent.now))
        (Offer u) w))) }
    ensures there { IsErr result → IsSome seat.new.receiver ↔ IsSome seat.old.receiver }
{
    match packet_at(sent, seat.cursor) {
        Some(packet) => seat.pass(&packet, steps),
        None => Ok(()),
    }
}

/// Loses the next packet of what was sent, if one is left.
pub fn lose_next(seat: &mut Seat, sent: &[u8])
    requires behind { seat.old.cursor ≤ length (packets_of sent.now) }
    ensures seated { (plan : Plan) (card : CardFields) (clear : List (List ℕ)) (total u : ℕ) (w : Watch) →
        IsSeated plan card clear total w seat.old →
        IsSeated plan card clear total (watch_after_event u (length (packets_of sent.now)) (Lose u) w) seat.new }
{
    if packet_at(sent, seat.cursor).is_some() {
        seat.cursor += 1;
    }
}

impl Seat {
    /// Switches the leaf's receiver on, as a new one, if it is off. On `NoMemory` the seat is as it was.
    pub fn turn_on<L: Ledger>(
        &mut self,
        alloc: Global,
        site: &Site,
        u: Leaf,
        steps: &mut Steps<L>,
    ) -> Result<(), NoMemory>
        requires leaf { u < 2 ^ site.now.height }
        ensures seated { (plan : Plan) (card : CardFields) (clear : List (List ℕ)) (total n : ℕ) (w : Watch) →
            card ≡ card_of site.now.master site.now.ca site.now.height u →
            IsSeated plan card clear total w self.old →
            OnOk result (IsSeated plan card clear total (watch_after_event u n (On u) w) self.new) }
        ensures same { IsErr result → self.new ≡ self.old }
        ensures was_off { IsErr result → is_some self.old.receiver ≡ false }
    {
        if self.receiver.is_some() {
            return Ok(());
        }
        self.receiver = Some(receiver_of(alloc, site, u, steps)?);
        Ok(())
    }

    /// Switches the leaf's receiver off.
    pub fn turn_off(&mut self)
        ensures seated { (plan : Plan) (card : CardFields) (clear : List (List ℕ)) (total u n : ℕ) (w : Watch) →
            IsSeated plan card clear total w self.old →
            IsSeated plan card clear total (watch_after_event u n (Off u) w) self.new }
    {
        self.receiver = None;
    }
}

/// The seats of all leaves, whose receivers are new.
pub fn new_seats<L: Ledger>(
    alloc: Global,
    site: &Site,
    room: usize,
    steps: &mut Steps<L>,
) -> Result<Vec<Seat>, NoMemory>
    ensures many { IfOk result (λ seats. length seats.items ≡ 2 ^ site.now.height) }
    ensures new { IfOk result (λ seats. AreNew site.now room seats.items) }
{
    let mut seats = Vec::new(alloc);
    for number in 0..site.height.leaves() {
        if let Some(u) = Leaf::new(site.height, number) {
            let seat = Seat::new(alloc, site, u, room, steps)?;
            add(&mut seats, seat)?;
        }
    }
    Ok(seats)
}

fn add(seats: &mut Vec<Seat>, seat: Seat) -> Result<(), NoMemory>
    ensures { OnOk result (seats.new.items ≡ seats.old.items ++ seat ∷ []) }
{
    Ok(seats.push(seat)?)
}
