//! Lines of a journal, as the worked cases have them.

use event_script::{
    Answer, EventNumber, Journal, print_answer, print_journal, print_updates, put_event_line,
};
use reg_model::Inserted;
use std::test::Fail;
use unwind_step::{End, Trace};

#[test]
fn lines_of_a_journal(rt: HostRuntime) -> Result<(), Fail> {
    let alloc = rt.alloc();
    let registered = Answer::Register {
        image: 0,
        answer: Inserted::Done { number: 1 },
    };
    let text = print_answer(alloc, 1, 1, 1, &registered)?;
    assert!(rt; text.as_slice() == b"1.1.1 register 0 done 1\n".as_slice());
    let trace = Trace {
        frames: Vec::new(alloc),
        end: End::NoBytes { address: 0x7000 },
    };
    let unwound = Answer::Unwind { snapshot: 0, trace };
    let number = EventNumber {
        round: 1,
        thread: 1,
        event: 2,
    };
    let mut text = String::new(alloc);
    put_event_line(&mut text, number, &unwound, 1)?;
    assert!(rt; text.as_str() == "1.1.2 end nobytes 7000\n");
    let text = print_updates(alloc, 1)?;
    assert!(rt; text.as_slice() == b"updates 1\n".as_slice());
    let journal = Journal {
        rounds: vec![in alloc; vec![in alloc; vec![in alloc; registered, unwound]?]?]?,
        updates: 1,
    };
    let text = print_journal(alloc, &journal)?;
    assert!(rt; text.as_slice() == JOURNAL.as_bytes());
    Ok(())
}

const JOURNAL: &str = "\
1.1.1 register 0 done 1
1.1.2 unwind 0
1.1.2 end nobytes 7000
updates 1
";
