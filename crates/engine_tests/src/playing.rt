//! Texts, words, scripts and runs that the tests share.

use run_engine::{Gate, Status, SureSink, SureSource, run};
use std::alloc::Global;
use std::sync::Wait;
use std::test::Fail;
use std::thread::Threads;

/// The case one_range of the built program.
pub const ONE_RANGE: &str = "\
frames 1
nodes 16
loads 8
image 0 1000 20 0 -
round
thread
register 0
find 1010
find 1020
deregister 1000
find 1010
end
";

pub const ONE_RANGE_JOURNAL: &str = "\
1.1.1 register 0 done 1
1.1.2 find 1010 registered 0 at 1
1.1.3 find 1020 registered none at 1 loaded none at 1
1.1.4 deregister 1000 done 2 image 0
1.1.5 find 1010 registered none at 2 loaded none at 2
updates 2
";

/// The words of a command line.
pub fn words_of(alloc: Global, line: &str) -> Result<Vec<String>, Fail> {
    let mut words = Vec::new(alloc);
    for word in line.split(' ') {
        words.push(String::from_str(alloc, word)?)?;
    }
    Ok(words)
}

/// A run of these words over devices that never fail: its status, and what it wrote.
pub fn run_text<G: Gate + Sync>(
    rt: &(impl Threads + Wait + Sync),
    alloc: Global,
    line: &str,
    text: &str,
    gate: &G,
) -> Result<(Status, SureSink), Fail> {
    let words = words_of(alloc, line)?;
    let mut source = SureSource::new(text.as_bytes().to_vec(alloc)?);
    let mut sink = SureSink::new(alloc);
    let status = run(rt, alloc, &words, &mut source, &mut sink, gate);
    Ok((status, sink))
}
