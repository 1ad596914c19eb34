//! What can happen in a field. Events are listed with the newest first.

ghost use Rattle.std.specs.Prelude.{◌≡◌, ◌^◌, ◌<◌, ◌++◌, true, false, List, All, length};
ghost use Rattle.sd_base.specs.Types.{Packets, LeafNumber, PacketNumber};
ghost use Rattle.sd_site_cards.specs.SiteFields.{SiteFields};
ghost use Rattle.sd_spec.specs.Plan.{Plan};
ghost use Rattle.sd_spec.specs.declared.event.Event.{Event};
ghost use Rattle.sd_spec.specs.Events.{is_of};
ghost use Rattle.sd_spec.specs.Book.{sends, plan_after};
ghost use Rattle.sd_spec.specs.Watch.{watch, count_sent, times};
ghost use Rattle.sd_law_field.specs.Choices.{IsChoice, is_of_head};

/// Whatever a head end was told and has sent, and whatever packets are chosen for the receivers of all leaves, in
/// whatever times: there are events of the receivers that offer each just what is chosen for it. Whatever events there
/// are, they offer each what may be chosen for it.
pub fn every_choice_is_reached()
    ensures made { (site : SiteFields) (clear : Packets) (past : List Event)
        (choice : LeafNumber → List (List PacketNumber)) → All (λ event. is_of_head event ≡ true) past →
        ((u : LeafNumber) → u < 2 ^ site.height →
        IsChoice (count_sent (plan_after site (length clear) past) clear (sends (length clear) past)) (choice u)) →
        (events : List Event) × All (λ event. is_of site.height event ≡ true) events
        × All (λ event. is_of_head event ≡ false) events
        × ((u : LeafNumber) → u < 2 ^ site.height →
        times (watch (plan_after site (length clear) (events ++ past)) clear u (events ++ past)) ≡ choice u) }
    ensures only { (plan : Plan) (clear : Packets) (u : LeafNumber) (past : List Event) →
        IsChoice (count_sent plan clear (sends (length clear) past)) (times (watch plan clear u past)) }
{}
