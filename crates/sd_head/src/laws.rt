//! What a head end writes of the packets of a stream, and what the positions of a message come to.

ghost use Rattle.std.specs.Prelude.{◌≡◌, ◌++◌, ◌∷◌, [], ℕ, List, Option, Some, None, ◌^◌, ◌<◌, length};
ghost use Rattle.std.specs.List.{concat};
ghost use Rattle.sd_engine.specs.Stage.{Chain};
ghost use Rattle.sd_engine.specs.Driving.{ChainToEnd, ChainToRefusal};
ghost use Rattle.sd_message.specs.declared.clear_fault.ClearFault.{ClearFault as ClearFaults};
ghost use Rattle.sd_spec.specs.Plan.{Plan};
ghost use Rattle.sd_spec.specs.Refused.{refusal_from, whole_refusal, IsClear};
ghost use Rattle.sd_spec.specs.Sent.{body, broadcast};
ghost use Rattle.sd_head.specs.declared.fault.HeadFault.{HeadFault as Faults};
ghost use Rattle.sd_head.specs.declared.fault.HeadFault.TheVariants.{Clear as ClearOf};
ghost use Rattle.sd_head.specs.declared.head.Head.{Head as Heads};
ghost use Rattle.sd_head.specs.Staged.{head_does, head_ends, head_refuses, IsHeadEndAfter};
ghost use Rattle.sd_message.specs.EcmForm.{ArePositioned, ArePidsAscending, AreShort};
ghost use Rattle.sd_spec.specs.Messages.{places_after};

/// Of packets that it is offered one after the other from its beginning a head end writes the broadcast but for the
/// closing message, and the packets are clear.
pub fn chains_write_bodies()
    ensures body { (plan : Plan) (packets : List (List ℕ)) (s t : Heads) (bytes : List ℕ) (steps : ℕ) →
        IsHeadEndAfter plan [] s →
        Chain head_does s packets t bytes steps → bytes ≡ concat (body plan packets) }
    ensures clear { (plan : Plan) (packets : List (List ℕ)) (s t : Heads) (bytes : List ℕ) (steps : ℕ) →
        IsHeadEndAfter plan [] s →
        Chain head_does s packets t bytes steps → IsClear plan.site packets }
    ensures after { (plan : Plan) (packets : List (List ℕ)) (s t : Heads) (bytes : List ℕ) (steps : ℕ) →
        IsHeadEndAfter plan [] s →
        Chain head_does s packets t bytes steps → IsHeadEndAfter plan packets t }
{}

/// With the end after them it writes the whole broadcast of the packets, which are clear. Where there are none, a
/// control word is left.
pub fn whole_streams_are_broadcast()
    ensures value { (plan : Plan) (packets : List (List ℕ)) (s t : Heads) (bytes : List ℕ) (steps : ℕ) →
        IsHeadEndAfter plan [] s →
        ChainToEnd head_does head_ends s packets t bytes steps → bytes ≡ concat (broadcast plan packets) }
    ensures clear { (plan : Plan) (packets : List (List ℕ)) (s t : Heads) (bytes : List ℕ) (steps : ℕ) →
        IsHeadEndAfter plan [] s →
        ChainToEnd head_does head_ends s packets t bytes steps → IsClear plan.site packets }
    ensures end { (plan : Plan) (packets : List (List ℕ)) (s t : Heads) (bytes : List ℕ) (steps : ℕ) →
        IsHeadEndAfter plan [] s →
        ChainToEnd head_does head_ends s packets t bytes steps → whole_refusal plan.site packets ≡ None }
{}

/// A refusal, of a packet or of the end, leaves the broadcast of the packets before it but for the closing message. A
/// packet is refused by the first rule that the stream breaks, or where memory ran out, and so is the end.
pub fn refusals_leave_bodies()
    ensures body { (plan : Plan) (packets : List (List ℕ)) (refused : Option (List ℕ)) (fault : Faults) (s t : Heads)
        (bytes : List ℕ) (steps : ℕ) → IsHeadEndAfter plan [] s →
        ChainToRefusal head_does head_refuses s packets refused fault t bytes steps →
        bytes ≡ concat (body plan packets) }
    ensures clear { (plan : Plan) (packets : List (List ℕ)) (refused : Option (List ℕ)) (fault : Faults) (s t : Heads)
        (bytes : List ℕ) (steps : ℕ) → IsHeadEndAfter plan [] s →
        ChainToRefusal head_does head_refuses s packets refused fault t bytes steps → IsClear plan.site packets }
    ensures fault { (plan : Plan) (packets rest : List (List ℕ)) (packet : List ℕ) (fault : ClearFaults) (s t : Heads)
        (bytes : List ℕ) (steps : ℕ) → IsHeadEndAfter plan [] s →
        ChainToRefusal head_does head_refuses s packets (Some packet) (ClearOf fault) t bytes steps →
        refusal_from plan.site [] (packets ++ packet ∷ rest) ≡ Some fault }
    ensures end { (plan : Plan) (packets : List (List ℕ)) (fault : ClearFaults) (s t : Heads) (bytes : List ℕ)
        (steps : ℕ) → IsHeadEndAfter plan [] s →
        ChainToRefusal head_does head_refuses s packets None (ClearOf fault) t bytes steps →
        whole_refusal plan.site packets ≡ Some fault }
{}

/// The positions after packets are ones that a message may have, but for their count.
pub fn places_may_be_told()
    ensures positioned { (before : List (List ℕ)) → ArePositioned (places_after before) }
    ensures ascending { (before : List (List ℕ)) → ArePidsAscending (places_after before) }
    ensures short { (before : List (List ℕ)) → length before < 2 ^ 32 → AreShort (places_after before) }
{}
