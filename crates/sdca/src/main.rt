//! `sdca`: conditional access for transport streams, by Subset Difference.
#![tactic(auto)]

use std::process::ExitCode;

fn main(rt: HostRuntime) -> ExitCode {
    sd_run::start(&rt, rt.stdout(), rt.stderr())
}
