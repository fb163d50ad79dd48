//! The gate is passed before and after each event, with its round, thread and number.

use crate::playing::run_text;
use event_script::Answer;
use run_engine::{Gate, Status};
use std::alloc::Global;
use std::sync::{Mutex, Wait};
use std::test::Fail;

/// A call of a gate, with the address that was looked up where the event was answered.
#[derive(Clone, Copy, Debug, PartialEq, Eq)]
struct Pass {
    round: u32,
    thread: u32,
    event: u32,
    answered: Option<u64>,
}

/// Keeps its calls, in order.
#[derive(Drop)]
struct GateNotes {
    passes: Mutex<Vec<Pass>>,
}

impl Gate for GateNotes {
    fn pass<R: Wait>(&self, rt: &R, round: u32, thread: u32, event: u32, answer: Option<&Answer>) {
        let answered = match answer {
            Some(Answer::Find { pc, .. }) => Some(*pc),
            Some(_) => Some(0),
            None => None,
        };
        let pass = Pass {
            round,
            thread,
            event,
            answered,
        };
        let mut passes = self.passes.lock(rt);
        // A call that finds no memory is missed at the end.
        let _ = passes.push(pass);
    }

    // It waits for the lock of its notes.
    fn holds_back(&self) -> bool {
        true
    }
}

/// Each event looks up an address of its own: its round, thread and number are the digits.
const TWO_ROUNDS: &str = "\
frames 1
nodes 4
loads 1
round
thread
find 111
find 112
thread
find 121
thread
find 131
find 132
find 133
round
thread
find 211
thread
find 221
find 222
thread
find 231
end
";

/// The same events, by round, thread and number.
const EVENTS: [(u32, u32, u32, u64); 10] = [
    (1, 1, 1, 0x111),
    (1, 1, 2, 0x112),
    (1, 2, 1, 0x121),
    (1, 3, 1, 0x131),
    (1, 3, 2, 0x132),
    (1, 3, 3, 0x133),
    (2, 1, 1, 0x211),
    (2, 2, 1, 0x221),
    (2, 2, 2, 0x222),
    (2, 3, 1, 0x231),
];

/// The passes before and after each event.
fn wanted(alloc: Global) -> Result<Vec<Pass>, Fail> {
    let mut passes = Vec::new(alloc);
    for (round, thread, event, pc) in EVENTS {
        for answered in [None, Some(pc)] {
            passes.push(Pass {
                round,
                thread,
                event,
                answered,
            })?;
        }
    }
    Ok(passes)
}

/// The passes of each round and thread, which in a round come in any order.
fn by_thread(alloc: Global, passes: &[Pass]) -> Result<Vec<Pass>, Fail> {
    let mut sorted = Vec::new(alloc);
    for round in 1..3u32 {
        for thread in 1..4u32 {
            for pass in passes {
                if pass.round == round && pass.thread == thread {
                    sorted.push(*pass)?;
                }
            }
        }
    }
    Ok(sorted)
}

#[test]
fn each_event_passes_twice(rt: HostRuntime) -> Result<(), Fail> {
    let alloc = rt.alloc();
    let gate = GateNotes {
        passes: Mutex::new(Vec::new(alloc)),
    };
    let (status, _) = run_text(&rt, alloc, "run", TWO_ROUNDS, &gate)?;
    assert!(rt; status == Status::Done);
    let GateNotes { passes } = gate;
    let passes = passes.into_inner();
    let wanted = wanted(alloc)?;
    assert!(rt; passes.len() == wanted.len());
    let sorted = by_thread(alloc, &passes)?;
    assert_eq!(rt; sorted, wanted);
    Ok(())
}
