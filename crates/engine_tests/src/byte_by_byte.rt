//! Devices that hand out or take a byte at a call, of which one fails.

use crate::playing::words_of;
use run_engine::{MemorySink, MemorySource, NoGate, Status, run};
use std::alloc::Global;
use std::sync::Wait;
use std::test::Fail;
use std::thread::Threads;

/// The case program_library_and_generated_code of the built program, and its journal.
const SCRIPT: &str = "\
frames 1
nodes 16
loads 8
image 0 1000 30 2000 1400000000000000017a5200017810011b0c0708900100001c0000001c000000e0efffff2000\
000000410e108602430d0600000000000000140000003c000000e0efffff10000000000000000000000000000000
image 1 8000 40 9000 1c00000000000000017a504c5200017810079b001000001b1b0c0708900100001c0000002400\
0000d8efffff400000000400200000410e108602430d0600000000000000
image 2 50000 10 51000 1400000000000000017a5200017810011b0c070890010000140000001c000000e0efffff10\
000000000000000000000000000000
fixed 0
snapshot 0 0 0 0 0 0 0 7010 7000 0 0 0 0 0 0 0 0 50008
memory 7000 1080000000000000000000000000000030700000000000001010000000000000000000000000000000000\
0000000000000000000000000000000000000000000
round
thread
load 1
register 2
round
thread
unwind 0
thread
find 8010
thread
find 50008
thread
find 60000
round
thread
unload 8000
deregister 50000
end
";

const JOURNAL: &str = "\
1.1.1 load 1 done 1
1.1.2 register 2 done 2
2.1.1 unwind 0
2.1.1 frame 0 pc 50008 sp 7000 look 50008 registered 2 at 2
2.1.1 frame 1 pc 8010 sp 7008 look 800f registered none at 2 loaded 1 at 2
2.1.1 frame 2 pc 1010 sp 7020 look 100f registered none at 2 loaded 0 at 2
2.1.1 frame 3 pc 0 sp 7040 look ffffffffffffffff registered none at 2 loaded none at 2
2.1.1 end noobject
2.2.1 find 8010 registered none at 2 loaded 1 at 2
2.3.1 find 50008 registered 2 at 2
2.4.1 find 60000 registered none at 2 loaded none at 2
3.1.1 unload 8000 done 3 image 1
3.1.2 deregister 50000 done 4 image 2
updates 4
";

/// The first call, one in the middle, and the last one: a byte a call, and the end of the source.
const READS: [u32; 3] = [1, 429, 859];

const WRITES: [u32; 3] = [1, 298, 597];

/// A run of the script where these reads and writes fail.
fn played(
    rt: &(impl Threads + Wait + Sync),
    alloc: Global,
    reads: Vec<u32>,
    writes: Vec<u32>,
) -> Result<(Status, MemorySink), Fail> {
    let words = words_of(alloc, "run")?;
    let bytes = SCRIPT.as_bytes().to_vec(alloc)?;
    let mut source = MemorySource::in_pieces(bytes, reads, 1);
    let mut sink = MemorySink::in_pieces(alloc, writes, 1);
    let status = run(rt, alloc, &words, &mut source, &mut sink, &NoGate);
    Ok((status, sink))
}

#[test]
fn a_byte_at_a_call_is_as_good_as_all(rt: HostRuntime) -> Result<(), Fail> {
    let alloc = rt.alloc();
    let (status, sink) = played(&rt, alloc, Vec::new(alloc), Vec::new(alloc))?;
    assert!(rt; status == Status::Done, "{status:?}");
    assert!(rt; sink.bytes() == JOURNAL.as_bytes(), "another journal");
    Ok(())
}

#[test]
fn a_failed_read_of_a_byte_writes_nothing(rt: HostRuntime) -> Result<(), Fail> {
    let alloc = rt.alloc();
    for read in READS {
        let (status, sink) = played(&rt, alloc, vec![in alloc; read]?, Vec::new(alloc))?;
        assert!(rt; status == Status::ReadFault, "with read {read} failing");
        assert!(rt; sink.bytes().is_empty(), "with read {read} failing");
    }
    Ok(())
}

#[test]
fn a_failed_write_of_a_byte_leaves_those_before(rt: HostRuntime) -> Result<(), Fail> {
    let alloc = rt.alloc();
    for write in WRITES {
        let (status, sink) = played(&rt, alloc, Vec::new(alloc), vec![in alloc; write]?)?;
        assert!(rt; status == Status::WriteFault, "with write {write} failing");
        let taken = sink.bytes();
        assert!(rt;
            taken.len() as u64 + 1 == u64::from(write) && JOURNAL.as_bytes().starts_with(taken),
            "with write {write} failing"
        );
    }
    Ok(())
}
