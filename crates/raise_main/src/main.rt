//! The program: standard input, standard output and the words of the command line, handed to
//! `raise_run`.
#![tactic(auto)]

use raise_run::{RaiseStatus, raise_run};
use run_ports::start;
use std::process::ExitCode;

fn main(rt: HostRuntime) -> ExitCode {
    let Ok((words, mut source, mut sink)) = start(&rt, rt.reader()) else {
        return ExitCode::from(RaiseStatus::NoMemory.code());
    };
    let status = raise_run(&rt, rt.alloc(), &words, &mut source, &mut sink);
    ExitCode::from(sink.finish(status).code())
}
