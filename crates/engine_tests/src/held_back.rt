//! Threads that run side by side: a gate holds one back until another was answered.

use crate::counts::Counts;
use crate::playing::run_text;
use event_script::Answer;
use run_engine::{Gate, Status};
use std::sync::Wait;
use std::sync::atomic::{AtomicU64, Ordering};
use std::test::Fail;
use std::thread::yield_now;

/// For how many turns a thread is held back at the most.
const TURNS: u64 = 1_000_000_000;

/// Holds event 1 of thread 1 back until event 1 of thread 2 was answered, and counts what passes.
#[derive(Drop)]
pub struct HeldBack {
    pub counts: Counts,
    answered: AtomicU64,
    used_up: AtomicU64,
}

impl HeldBack {
    pub fn new() -> Self {
        HeldBack {
            counts: Counts::new(),
            answered: AtomicU64::new(0),
            used_up: AtomicU64::new(0),
        }
    }

    /// Whether a thread went on though the other wasn't answered.
    pub fn gave_up(&self) -> bool {
        self.used_up.load(Ordering::SeqCst) == 1
    }

    /// Waits until the other event was answered.
    fn wait(&self) {
        for turn in 0..TURNS {
            if self.answered.load(Ordering::SeqCst) == 1 {
                return;
            }
            if turn % 1_024 == 0 {
                yield_now();
            }
        }
        self.used_up.store(1, Ordering::SeqCst);
    }
}

impl Gate for HeldBack {
    fn pass<R: Wait>(
        &self,
        _rt: &R,
        _round: u32,
        thread: u32,
        event: u32,
        answer: Option<&Answer>,
    ) {
        self.counts.see(answer);
        match (thread, event, answer.is_some()) {
            (1, 1, false) => self.wait(),
            (2, 1, true) => self.answered.store(1, Ordering::SeqCst),
            _ => {}
        }
    }

    fn holds_back(&self) -> bool {
        true
    }
}

/// Two scripts with the journals that they have where thread 2 comes first.
const SECOND_COMES_FIRST: [(&str, &str); 2] = [
    (
        "\
frames 1
nodes 4
loads 1
image 0 1000 20 0 -
round
thread
find 1010
thread
load 0
end
",
        "\
1.1.1 find 1010 registered none at 1 loaded 0 at 1
1.2.1 load 0 done 1
updates 1
",
    ),
    (
        "\
frames 1
nodes 4
loads 1
image 0 1000 20 0 -
image 1 1010 20 0 -
round
thread
register 0
thread
register 1
end
",
        "\
1.1.1 register 0 overlap 1010 1 at 1
1.2.1 register 1 done 1
updates 1
",
    ),
];

#[test]
fn the_second_thread_comes_first(rt: HostRuntime) -> Result<(), Fail> {
    let alloc = rt.alloc();
    for (script, journal) in SECOND_COMES_FIRST {
        let gate = HeldBack::new();
        let (status, sink) = run_text(&rt, alloc, "run", script, &gate)?;
        assert!(rt; status == Status::Done);
        assert!(rt; !gate.gave_up());
        assert!(rt; sink.bytes() == journal.as_bytes());
    }
    Ok(())
}
