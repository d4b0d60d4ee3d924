//! `orgstore DIR [--new NAME].. [--only NAME].. [--todo LIST] [--done LIST] [--group K | --whole]
//! [--adopt | --forget]`: runs the command lines of standard input over the Org files of a folder,
//! and writes their replies to standard output. A fault is a line on standard error and the exit
//! status.
#![tactic(auto)]

use org_program::{Fault, HostSystem, Unknown, given_words, input, output, run};
use std::process::ExitCode;

fn main(rt: HostRuntime) -> ExitCode {
    match run_streams(&rt) {
        Ok(()) => ExitCode::SUCCESS,
        Err(fault) => {
            // Where standard error can't be written either, the status alone tells.
            let _ = eprintln!(rt; "{fault}");
            ExitCode::from(fault.status())
        }
    }
}

// `run` of the words of the command line over the standard streams, and a folder of which nothing
// is known.
fn run_streams(rt: &HostRuntime) -> Result<(), Fault> {
    let words = given_words(rt)?;
    let mut reader = input(rt);
    let mut writer = output(rt)?;
    let system: HostSystem<HostRuntime, Unknown> = HostSystem::new(rt.clone()?);
    match run(rt.alloc(), system, &words, &mut reader, &mut writer) {
        Ok(ran) => ran.end,
        Err(unserved) => Err(unserved.fault),
    }
}
