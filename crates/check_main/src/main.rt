//! The program: standard input, standard output and the words of the command line, handed to
//! `check_run`.
#![tactic(auto)]

use check_run::{CheckStatus, check_run};
use run_ports::start;
use std::process::ExitCode;

fn main(rt: HostRuntime) -> ExitCode {
    let Ok((words, mut source, mut sink)) = start(&rt, rt.reader()) else {
        return ExitCode::from(CheckStatus::NoMemory.code());
    };
    let status = check_run(rt.alloc(), &words, &mut source, &mut sink);
    ExitCode::from(sink.finish(status).code())
}
