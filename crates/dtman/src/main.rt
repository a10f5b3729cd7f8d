//! `dtman`: devicetree compiler and driver-binding manager.
#![tactic(auto)]

use dtman_cli::run;
use std::process::ExitCode;

fn main(rt: HostRuntime) -> ExitCode {
    run(&rt)
}
