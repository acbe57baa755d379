//! The program. All that it does is in `ptu_cli`.
#![tactic(auto)]

use ptu_cli::program;
use std::process::ExitCode;

fn main(rt: HostRuntime) -> ExitCode {
    program(&rt)
}
