//! Laws on where a field stops.

ghost use Rattle.std.specs.Prelude.{◌≡◌, ◌↔◌, ◌<◌, ℕ, [], List, None, Some, get_or, length, take};
ghost use Rattle.sd_site_cards.specs.SiteFields.{SiteFields};
ghost use Rattle.sd_message.specs.declared.clear_fault.ClearFault.{ClearFault};
ghost use Rattle.sd_spec.specs.Refused.{IsClear, refusal_from, refusal_of};
ghost use Rattle.sd_field.specs.Fields.{FieldValue, after_next, done_to, next_refusal, field_clear_packets};

/// The first k packets of a clear stream are accepted as a clear stream if and only if none of them is refused after
/// those before it.
pub fn refused_in_front()
    ensures { (site : SiteFields) (clear : List (List ℕ)) (k : ℕ) → IsClear site (take k clear)
        ↔ ((j : ℕ) → j < k → j < length clear → refusal_of site (take j clear) (get_or clear j []) ≡ None) }
{}

/// A field goes on while no clear packet that it sends is refused. It stops at the first refused one of those that its
/// events send.
pub fn fields_stop_at_the_first_refusal()
    ensures on { (v : FieldValue) → v.done < length v.events → IsClear v.site (field_clear_packets v) →
        next_refusal v ≡ None →
        IsClear v.site (field_clear_packets (after_next v)) }
    ensures stops { (v : FieldValue) (fault : ClearFault) (done : ℕ) → IsClear v.site (field_clear_packets v) →
        next_refusal v ≡ Some fault → v.done < done →
        refusal_from v.site [] (field_clear_packets (done_to done v)) ≡ Some fault }
{}
