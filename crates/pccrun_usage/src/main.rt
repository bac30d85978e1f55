//! The program again, run on two words that ask for nothing: it writes the usage line and ends with status 2.
#![tactic(auto)]

use pcc_io::{StdSink, StdSource};
use pccrun_core::run_program;
use std::process::ExitCode;

fn main(rt: HostRuntime) -> ExitCode {
    let mut source = StdSource::new(rt.stdin());
    let mut sink = StdSink::new(rt.stdout());
    ExitCode::from(run_program(&rt, &mut source, &mut sink))
}
