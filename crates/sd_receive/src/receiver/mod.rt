//! The receiver: its card, its session, and how earlier broadcasts ended; a stage of packets.

ghost use Rattle.std.specs.Prelude.{◌≡◌, ℕ, List, [], false, None, IfOk, length, reverse};
ghost use Rattle.std.specs.Option.{option_map_or};
ghost use Rattle.sd_spec.specs.Heard.{hears};
ghost use Rattle.sd_spec.specs.Ending.{ending_of};
ghost use Rattle.sd_spec.specs.Offered.{heard, out_from};
ghost use Rattle.sd_spec.specs.Reports.{run_end};
ghost use Rattle.sd_spec.specs.Runs.{run_name_in};
ghost use Rattle.sd_spec.specs.Counting.{is_part_again, is_stray_at};
ghost use Rattle.sd_spec.specs.Tuned.{tuning_of};
ghost use Rattle.sd_receive.specs.Receiving.{HasReceived, MayReceive, receiver_card};
ghost use Rattle.sd_receive.specs.Session.{capped_count};

mod ended;
mod stage;

use crate::filter::{Channel, channel_of};
use crate::session::Session;
pub use ended::{EndedRun, EndedRuns};
use sd_base::NoMemory;
use sd_message::StreamFault;
use sd_packet::Packet;
use sd_psi::Tuning;
use sd_site_cards::Card;
use sd_spec::Ending;
use sd_tree_keys::Leaf;
use std::alloc::Global;

/// A receiver: its card, and what it keeps of the packets that were offered [this project, docs/FORMATS.md, Receiver].
pub struct Receiver {
    pub(crate) card: Card,
    // The number of packets that were offered, at most 2^64 - 1.
    pub(crate) count: u64,
    // The PIDs in the CAT that was taken, if one was.
    pub(crate) tuning: Option<Tuning>,
    // The name of the current run, if a message of one was heard.
    pub(crate) name: Option<Option<u32>>,
    // What it keeps of the runs before it.
    pub(crate) ended: EndedRuns,
    // What it keeps of the current run.
    pub(crate) session: Session,
    // Why a packet was refused, if one was.
    pub(crate) refusal: Option<StreamFault>,
}

// Written out, so that an owner drops a receiver by one call and not vector by vector.
impl Drop for Receiver {
    fn drop(self) {
        let Receiver {
            card: _,
            count: _,
            tuning: _,
            name: _,
            ended: _,
            session: _,
            refusal: _,
        } = self;
    }
}

impl Receiver {
    /// A receiver with this card, before the first packet. All memory that it needs is allocated here: by its layout
    /// 999,424 bytes, which no clause says.
    pub fn new(alloc: Global, card: Card) -> Result<Receiver, NoMemory>
        ensures value { IfOk result (HasReceived []) }
        ensures card { IfOk result (λ receiver. receiver.card ≡ card) }
        ensures live { IfOk result MayReceive }
        ensures told { IfOk result (λ receiver. receiver.ended.last ≡ None) }
    {
        let session = Session::new(alloc)?;
        Ok(Receiver {
            card,
            count: 0,
            tuning: None,
            name: None,
            ended: EndedRuns {
                so_far: Ending::Opened,
                written: 0,
                last: None,
            },
            session,
            refusal: None,
        })
    }

    /// The leaf of the receiver's card.
    pub fn leaf(&self) -> Leaf
        ensures { result ≡ self.now.card.leaf }
    {
        self.card.leaf()
    }

    /// How the stream ends for the receiver, if it ends here: the endings of all runs so far, together. The clause
    /// holds as long as no packet was refused [this project, docs/FORMATS.md, Receiver].
    pub fn ending(&self) -> Ending
        ensures { (past : List (List ℕ)) → HasReceived past self.now →
            result ≡ ending_of (receiver_card self.now) past }
    {
        if self.tuning.is_none() {
            return Ending::NoCat;
        }
        self.ended.so_far.with(self.session.ending())
    }

    /// How the current run ends, if it ends here and is the only one [this project, docs/FORMATS.md, Receiver].
    pub fn run_end(&self) -> Ending
        ensures { (past : List (List ℕ)) → HasReceived past self.now → result ≡ run_end (receiver_card self.now) past }
    {
        if self.tuning.is_none() {
            return Ending::NoCat;
        }
        self.session.ending()
    }

    /// The name of the current run, if a message was heard; it is `Some(None)` in versions 1 and 2, whose runs have
    /// none [this project, docs/FORMATS.md, Receiver].
    pub fn name(&self) -> Option<Option<u32>>
        ensures { (past : List (List ℕ)) → HasReceived past self.now →
            result ≡ run_name_in (heard (receiver_card self.now) past) }
    {
        self.name
    }

    /// The number of packets that were written, of all runs, at most 2^64 - 1.
    pub fn written(&self) -> u64
        ensures { (past : List (List ℕ)) → HasReceived past self.now →
            result ≡ capped_count (length (out_from (receiver_card self.now) [] (reverse past))) }
    {
        self.ended.written.saturating_add(self.session.written)
    }

    /// Whether the packet is scrambled, and can't be one under the control word of the newest complete control message
    /// of its run, which isn't closed. The headers decide it, not whether a key is known [this project,
    /// docs/FORMATS.md, Receiver].
    #[inline(always)]
    #[tactic(auto, using(crate::proofs::Asked::untuned_unstray, crate::proofs::Asked::stray_heard, crate::proofs::Asked::dropped_unstray, crate::proofs::Asked::emm_unstray, crate::proofs::Asked::ecm_unstray))]
    pub fn is_stray(&self, packet: &Packet) -> bool
        ensures { (past : List (List ℕ)) → HasReceived past self.now →
            result ≡ is_stray_at (receiver_card self.now) past packet.now }
    {
        let Some(tuning) = self.tuning else {
            return false;
        };
        match channel_of(tuning, packet) {
            Channel::Other => self.session.is_stray(packet),
            Channel::Cat | Channel::Emm | Channel::Ecm => false,
        }
    }

    /// Whether the packet is a part of the control message whose parts are collected, and says nothing new: it agrees
    /// with the parts that arrived, isn't behind the newest of them, and has no position that isn't among theirs [this
    /// project, docs/FORMATS.md, Receiver].
    #[inline(always)]
    #[tactic(auto, using(crate::proofs::Asked::untuned_unsaid, crate::proofs::Asked::again_heard, crate::proofs::Asked::dropped_unsaid, crate::proofs::Asked::emm_unsaid, crate::proofs::Asked::other_unsaid))]
    pub fn hears_again(&self, packet: &Packet) -> bool
        ensures { (past : List (List ℕ)) → HasReceived past self.now →
            result ≡ option_map_or (λ tuning. is_part_again (heard (receiver_card self.now) past)
            (hears (receiver_card self.now).height tuning (length past) packet.now))
            (tuning_of (receiver_card self.now).ca past) false }
    {
        let Some(tuning) = self.tuning else {
            return false;
        };
        match channel_of(tuning, packet) {
            Channel::Ecm => self.session.hears_again(packet),
            Channel::Cat | Channel::Emm | Channel::Other => false,
        }
    }
}
