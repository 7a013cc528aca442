// The programs, each as a function that is given the runtime: a program's `main` calls its own, and ends with what it gives.
#![tactic(auto)]

use manners::exit_code;
use std::process::ExitCode;

pub fn olbiothar_run_bustable(rt: HostRuntime) -> ExitCode {
    exit_code(bustable::run(rt))
}

pub fn olbiothar_run_checktable(rt: HostRuntime) -> ExitCode {
    exit_code(checktable::run(rt))
}

pub fn olbiothar_run_playstation(rt: HostRuntime) -> ExitCode {
    exit_code(playstation::run(rt))
}

pub fn olbiothar_run_tablesheet(rt: HostRuntime) -> ExitCode {
    exit_code(tablesheet::run(rt))
}

pub fn olbiothar_run_sheettable(rt: HostRuntime) -> ExitCode {
    exit_code(sheettable::run(rt))
}

pub fn olbiothar_run_textplan(rt: HostRuntime) -> ExitCode {
    exit_code(textplan::run(rt))
}

pub fn olbiothar_run_plantext(rt: HostRuntime) -> ExitCode {
    exit_code(plantext::run(rt))
}
