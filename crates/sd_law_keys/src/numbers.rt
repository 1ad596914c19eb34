//! The numbers of the keystreams under which texts and payloads lie.

ghost use Rattle.std.specs.Prelude.{◌<◌, ◌^◌, Contains};
ghost use Rattle.sd_spec.specs.Plan.{IsPlan};
ghost use Rattle.sd_spec.specs.Refused.{IsSendable};
ghost use Rattle.sd_law_broadcast.specs.Pads.{Pad, pads_of};
ghost use Rattle.sd_law_broadcast.specs.Runs.{Run};

/// Each stream number of a broadcast has 64 bits, as many as a keystream has room for. So two numbers that differ are
/// of two keystreams.
pub fn stream_numbers_have_64_bits()
    ensures { (run : Run) (pad : Pad) → IsPlan run.plan → IsSendable run.plan.site run.clear →
        Contains (pads_of run) pad → pad.number < 2 ^ 64 }
{}
