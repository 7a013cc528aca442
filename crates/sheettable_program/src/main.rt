// The program: it ends with what its function gives.
#![tactic(auto)]

use programs::olbiothar_run_sheettable;
use std::process::ExitCode;

fn main(rt: HostRuntime) -> ExitCode {
    olbiothar_run_sheettable(rt)
}
