//! Laws on what a trial prints, by the theorems on the head end and the receiver.

ghost use Rattle.std.specs.Prelude.{◌≡◌, ◌^◌, ◌≤◌, Some, None, Ok, false, length};
ghost use Rattle.sd_base.specs.Types.{Bytes};
ghost use Rattle.sd_ports.specs.Bytes.{Prefix};
ghost use Rattle.sd_engine.specs.Taken.{Whole, packets_taken, end_of};
ghost use Rattle.sd_spec.specs.Plan.{Plan, IsPlan};
ghost use Rattle.sd_spec.specs.Refused.{whole_refusal};
ghost use Rattle.sd_law_broadcast.specs.Synced.{AreBytes};
ghost use Rattle.sd_command_base.specs.Spec.{FileArgument, Readings};
ghost use Rattle.sd_command_base.specs.Printed.{printing};
ghost use Rattle.sd_run_broadcasts.specs.Trial.{trial_clear_bytes, trial_plan_meaning, trial_meaning, trial_text};
ghost use Rattle.sd_law_field.specs.Trials.{opened_lines};

/// Take a site and a book within the limits, and a whole clear stream that is not refused. Then the work of
/// `trial SITE BOOK CLEAR` is to print these lines, and it ends as done. The first has the numbers of packets of the
/// stream and its broadcast. That of a leaf has the number of packets in periods in which the leaf isn't revoked, and
/// the first period of the broadcast in which it is.
#[tactic(auto, using(crate::proofs::Tried::trial_good))]
pub fn good_trials_print_what_is_opened()
    ensures { (site book clear : FileArgument) (given : Readings) (plan : Plan) (bytes : Bytes) → IsPlan plan →
        (trial_plan_meaning site book given).result ≡ Ok plan → given clear ≡ Some bytes →
        length bytes ≤ trial_clear_bytes →
        AreBytes bytes → end_of bytes ≡ Whole → whole_refusal plan.site (packets_taken bytes) ≡ None →
        (trial_meaning site book clear given).result
        ≡ Ok (printing (Ok (opened_lines plan (packets_taken bytes) (2 ^ plan.site.height)))) }
{}

/// A trial that prints lines took all of a whole clear stream that is not refused, and printed the lines of
/// what its receivers open.
#[tactic(auto, using(crate::proofs::Tried::trial_done))]
pub fn done_trials_print_what_is_opened()
    ensures { (plan : Plan) (prefix : Prefix) (text : Bytes) → IsPlan plan → AreBytes prefix.bytes →
        trial_text plan prefix ≡ Ok text →
        (end_of prefix.bytes ≡ Whole) × (whole_refusal plan.site (packets_taken prefix.bytes) ≡ None)
        × (prefix.more ≡ false)
        × (text ≡ opened_lines plan (packets_taken prefix.bytes) (2 ^ plan.site.height)) }
{}
