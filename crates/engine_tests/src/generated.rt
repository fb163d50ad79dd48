//! The generated script, and its run with a gate that sees each answer.

use crate::held_back::HeldBack;
use crate::playing::run_text;
use event_script::print_script;
use run_engine::Status;
use script_generator::generate;
use std::sync::atomic::Ordering;
use std::test::Fail;

/// The script for two images a thread, as another program wrote it by `docs/FORMATS.md`. Here stand
/// the lines of its images without their sections.
static IMAGES: [&str; 8] = [
    "image 0 100000000 30 100001000",
    "image 1 100000040 30 100001040",
    "image 2 200000000 30 200001000",
    "image 3 200000040 30 200001040",
    "image 4 300000000 30 300001000",
    "image 5 300000040 30 300001040",
    "image 6 400000000 30 400001000",
    "image 7 400000040 30 400001040",
];

const SECTION: &str = "1400000000000000017a5200017810011b0c0708900100001c0000001c000000e0efffff\
2000000000410e108602430d0600000000000000140000003c000000e0efffff10000000000000000000000000000000";

const REST: &str =
    "snapshot 0 0 0 0 0 0 0 7010 7000 0 0 0 0 0 0 0 0 100000025\nmemory 7000 2000000001000000000000\
000000000000000000000000000000000000000000\nsnapshot 1 0 0 0 0 0 0 7010 7000 0 0 0 0 0 0 0 0 200000\
025\nmemory 7000 2000000002000000000000000000000000000000000000000000000000000000\nsnapshot 2 0 0 \
0 0 0 0 7010 7000 0 0 0 0 0 0 0 0 300000025\nmemory 7000 200000000300000000000000000000000000000000\
0000000000000000000000\nsnapshot 3 0 0 0 0 0 0 7010 7000 0 0 0 0 0 0 0 0 400000025\nmemory 7000 200\
0000004000000000000000000000000000000000000000000000000000000\nround\nthread\nregister 0\nregister \
1\nfind 10000002f\nfind 100000030\nfind 10000006f\nfind 100000070\nunwind 0\nderegister 100000000\n\
find 100000000\nfind 100000040\nthread\nregister 3\nregister 2\nfind 20000006f\nfind 200000070\nfin\
d 20000002f\nfind 200000030\nunwind 1\nderegister 200000000\nfind 200000040\nfind 200000000\nthread\
\nload 4\nload 5\nfind 30000002f\nfind 300000030\nfind 30000006f\nfind 300000070\nunwind 2\nunload \
300000000\nfind 300000000\nfind 300000040\nthread\nload 7\nload 6\nfind 40000006f\nfind 400000070\n\
find 40000002f\nfind 400000030\nunwind 3\nunload 400000000\nfind 400000040\nfind 400000000\nend\n";

#[test]
fn two_images_a_thread(rt: HostRuntime) -> Result<(), Fail> {
    let alloc = rt.alloc();
    let mut wanted = String::new(alloc);
    wanted.push_str("frames 1\nnodes 4096\nloads 1024\n")?;
    for image in IMAGES {
        wanted.push_str(image)?;
        wanted.push_str(" ")?;
        wanted.push_str(SECTION)?;
        wanted.push_str("\n")?;
    }
    wanted.push_str(REST)?;
    let script = generate(alloc, 2)?;
    let text = print_script(alloc, &script)?;
    assert!(rt; text.as_slice() == wanted.as_bytes());
    Ok(())
}

const SUMMARY_OF_ONE: &str = "threads 4\nevents 24\nupdates 8\nhits 4\nmisses 8\nframes 12\n";

#[test]
fn the_generated_script_is_run(rt: HostRuntime) -> Result<(), Fail> {
    let alloc = rt.alloc();
    let gate = HeldBack::new();
    let (status, sink) = run_text(&rt, alloc, "gen 1", "", &gate)?;
    assert!(rt; status == Status::Done);
    assert!(rt; sink.bytes() == SUMMARY_OF_ONE.as_bytes());
    assert!(rt; !gate.gave_up());
    let counts = &gate.counts;
    for (seen, wanted) in [
        (&counts.passes, 48),
        (&counts.numbers, 11_111_111),
        (&counts.hits, 4),
        (&counts.misses, 8),
        (&counts.traces, 4),
        (&counts.traces_of_three, 4),
    ] {
        assert_eq!(rt; seen.load(Ordering::SeqCst), wanted);
    }
    Ok(())
}
