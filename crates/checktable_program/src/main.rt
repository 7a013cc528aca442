// The program: it ends with what its function gives.
#![tactic(auto)]

use programs::olbiothar_run_checktable;
use std::process::ExitCode;

fn main(rt: HostRuntime) -> ExitCode {
    olbiothar_run_checktable(rt)
}
