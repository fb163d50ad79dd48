//! A journal's text is read again: what each kind of answer tells.

use event_script::{Answer, Journal, read};
use journal_reader::read_journal;
use reg_model::{Inserted, Member, Removed, Replaced};
use std::test::Fail;
use unwind_step::End;

/// Each kind of event, two images, and a stack.
const SCRIPT: &str = "\
frames 2
nodes 16
loads 8
image 0 1000 20 0 -
image 1 3000 10 0 -
snapshot 0 0 0 0 0 0 0 0 0 0 0 0 0 0 0 0 0 0
round
thread
register 0
register 1
find 1010
unwind 0
thread
load 1
unload 3000
deregister 1000
replace 1
replace 0
end
";

/// Each kind of answer. That they are right, nobody asks here.
const JOURNAL: &str = "\
1.1.1 register 0 done 1
1.1.2 register 1 overlap 1001 0 at 1
1.1.3 find 1010 registered 0 at 1
1.1.4 unwind 0
1.1.4 frame 0 pc 1025 sp 7000 look 1025 registered 0 at 1
1.1.4 frame 1 pc 0 sp 7020 look ffffffffffffffff registered none at 1 loaded 1 at 2
1.1.4 end nobytes ffffffffffffffff
1.2.1 load 1 full at 2
1.2.2 unload 3000 done 3 image 1
1.2.3 deregister 1000 absent at 4294967295
1.2.4 replace 1 done 4 image 0
1.2.5 replace 0 absent at 2
updates 4294967295
";

/// The answers of the first round's thread, counted from 0; none where there is no such thread.
fn answers(journal: &Journal, thread: usize) -> &[Answer] {
    match journal.rounds.first() {
        Some(round) => match round.get(thread) {
            Some(answers) => answers.as_slice(),
            None => &[],
        },
        None => &[],
    }
}

/// Two threads of one round, with four and five answers, and the greatest number of updates.
fn has_all(journal: &Journal) -> bool {
    let threads = match journal.rounds.first() {
        Some(round) => round.len(),
        None => 0,
    };
    let counts = (
        threads,
        answers(journal, 0).len(),
        answers(journal, 1).len(),
    );
    counts == (2, 4, 5) && journal.updates == u32::MAX
}

fn is_member(member: &Member, first: u64, last: u64) -> bool {
    member.span.first() == first && member.span.last() == last
}

/// An overlap at a wrong base is of one address.
fn has_overlap(journal: &Journal) -> bool {
    match answers(journal, 0).get(1) {
        Some(
            Answer::Register {
                image: 1,
                answer: Inserted::Overlap { member, stamp: 1 },
            },
        ) => is_member(member, 0x1001, 0x1001) && member.payload == 0,
        _ => false,
    }
}

fn has_backtrace(journal: &Journal) -> bool {
    match answers(journal, 0).get(3) {
        Some(Answer::Unwind { snapshot: 0, trace }) => {
            trace.frames.len() == 2 && trace.end == End::NoBytes { address: u64::MAX }
        }
        _ => false,
    }
}

fn has_removal(journal: &Journal) -> bool {
    match answers(journal, 1).get(1) {
        Some(
            Answer::Unload {
                base: 0x3000,
                answer: Removed::Done { number: 3, member },
            },
        ) => is_member(member, 0x3000, 0x300f),
        _ => false,
    }
}

fn has_replacement(journal: &Journal) -> bool {
    let (number, payload) = (4, 0);
    match answers(journal, 1).get(3) {
        Some(Answer::Replace { image: 1, answer }) => {
            *answer == Replaced::Done { number, payload }
        }
        _ => false,
    }
}

#[test]
fn each_kind_of_answer_is_read(rt: HostRuntime) -> Result<(), Fail> {
    let alloc = rt.alloc();
    let script = read(alloc, SCRIPT.as_bytes())?;
    let Ok(journal) = read_journal(alloc, &script, JOURNAL.as_bytes())? else {
        return Err("a journal".into());
    };
    assert!(rt; has_all(&journal));
    assert!(rt; has_overlap(&journal));
    assert!(rt; has_backtrace(&journal));
    assert!(rt; has_removal(&journal));
    assert!(rt; has_replacement(&journal));
    Ok(())
}
