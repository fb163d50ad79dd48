//! The program: standard input, standard output and the words of the command line, handed to the
//! engine.
#![tactic(auto)]

use run_engine::{NoGate, Status, run};
use run_ports::start;
use std::process::ExitCode;

fn main(rt: HostRuntime) -> ExitCode {
    let Ok((words, mut source, mut sink)) = start(&rt, rt.reader()) else {
        return ExitCode::from(Status::NoMemory.code());
    };
    let status = run(&rt, rt.alloc(), &words, &mut source, &mut sink, &NoGate);
    ExitCode::from(sink.finish(status).code())
}
