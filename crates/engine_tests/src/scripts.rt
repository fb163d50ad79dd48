//! A script is read, and printed back.

use event_script::{Event, Script, print_script, read};
use frame_expr::{Regs, WordSource};
use std::test::Fail;

/// Each kind of line: the cases one_range, loaded_and_fixed and call_is_last_instruction in one.
const ALL_LINES: &str = "\
frames 1
nodes 16
loads 2
image 0 1000 20 0 -
image 1 1010 20 0 -
image 2 3000 10 0 -
fixed 0
fixed 2
snapshot 0 0 1 2 3 4 5 7010 7000 8 9 a b c d e f ffffffffffffffff
memory 7000 2010000000000000
memory 7008 00
snapshot 1 0 0 0 0 0 0 0 0 0 0 0 0 0 0 0 0 0
round
thread
register 1
find 1010
load 2
unwind 1
unload 3000
deregister 1010
end
";

const COLUMNS: [u64; 17] = [
    0,
    1,
    2,
    3,
    4,
    5,
    0x7010,
    0x7000,
    8,
    9,
    10,
    11,
    12,
    13,
    14,
    15,
    u64::MAX,
];

fn has_images(script: &Script) -> bool {
    let spans = match script.images.get(2) {
        Some(image) => image.first() == 0x3000 && image.last() == 0x300f,
        None => false,
    };
    spans && script.nodes == 16 && script.loads == 2 && script.fixed.as_slice() == [0, 2].as_slice()
}

fn has_snapshot(script: &Script) -> bool {
    match script.snapshots.first() {
        Some(snapshot) => {
            snapshot.regs == Regs { columns: COLUMNS }
                && snapshot.memory.word(0x7000) == Some(0x1020)
                && snapshot.memory.word(0x7001).is_none()
        }
        None => false,
    }
}

const EVENTS: [Event; 6] = [
    Event::Register { image: 1 },
    Event::Find { pc: 0x1010 },
    Event::Load { image: 2 },
    Event::Unwind { snapshot: 1 },
    Event::Unload { base: 0x3000 },
    Event::Deregister { base: 0x1010 },
];

fn has_events(script: &Script) -> bool {
    match script.rounds.first() {
        Some(round) => match round.threads.first() {
            Some(thread) => thread.events.as_slice() == EVENTS.as_slice(),
            None => false,
        },
        None => false,
    }
}

#[test]
fn each_kind_of_line_is_read_and_printed_back(rt: HostRuntime) -> Result<(), Fail> {
    let alloc = rt.alloc();
    let script = read(alloc, ALL_LINES.as_bytes())?;
    assert!(rt; has_images(&script));
    assert!(rt; has_snapshot(&script));
    assert!(rt; has_events(&script));
    let printed = print_script(alloc, &script)?;
    assert!(rt; printed.as_slice() == ALL_LINES.as_bytes());
    Ok(())
}
