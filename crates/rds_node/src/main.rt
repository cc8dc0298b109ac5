//! A node of a document store: replicas of one document that are edited apart and joined.
#![tactic(auto)]

mod output;
mod process;
mod sites;

use process::run_process;
use std::process::ExitCode;

fn main(rt: HostRuntime) -> ExitCode {
    run_process(&rt)
}
