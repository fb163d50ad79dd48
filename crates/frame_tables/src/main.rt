//! Questions to the frames crates that the library for C can't be asked, and their answers: a table
//! of tests. Each line of standard input is a question, a comment that begins with `#`, or empty;
//! what is written is the same lines, with ` = ` and the answer after each question. A line that
//! can't be read is answered with its place and what is wanted there, the others go on, and the
//! status is 3 in the end.
#![tactic(auto)]

mod bytes;
mod headers;
mod questions;
mod regions;
mod rows;
mod sections;
mod sound;
mod words;

use questions::answer;
use std::alloc::Global;
use std::io::{self, BufRead, BufReader};
use std::process::ExitCode;
use std::sync::Wait;
use words::{LineWords, Refusal};

/// What a line came to.
#[derive(Clone, Copy)]
enum Line {
    Told,
    Unreadable,
}

/// Writes a question again, with the answer.
fn tell_answer(
    rt: &(impl Print + Wait),
    alloc: Global,
    number: usize,
    line: &str,
) -> io::Result<Line> {
    let mut text = String::new(alloc);
    match answer(LineWords::of(alloc, line), &mut text) {
        Ok(()) => {
            println!(rt; "{line} = {text}")?;
            Ok(Line::Told)
        }
        Err(Refusal::Unreadable { word, wanted }) => {
            println!(rt; "{line} = unreadable: line {number} word {word}: {wanted}")?;
            Ok(Line::Unreadable)
        }
        Err(Refusal::NoMemory(fault)) => Err(fault.into()),
    }
}

/// Writes a line again, with the answer where it is a question.
fn tell(rt: &(impl Print + Wait), alloc: Global, number: usize, line: &str) -> io::Result<Line> {
    if line.is_empty() || line.starts_with('#') {
        println!(rt; "{line}")?;
        return Ok(Line::Told);
    }
    tell_answer(rt, alloc, number, line)
}

/// Answers all lines: whether each could be read.
fn answer_all(rt: &(impl Print + Input + Wait), alloc: Global) -> io::Result<Line> {
    let mut all = Line::Told;
    for (index, line) in BufReader::new(alloc, rt.reader())?.lines(alloc).enumerate() {
        let number = index.saturating_add(1);
        if let Line::Unreadable = tell(rt, alloc, number, &line?)? {
            all = Line::Unreadable;
        }
    }
    Ok(all)
}

fn main(rt: HostRuntime) -> io::Result<ExitCode> {
    match answer_all(&rt, rt.alloc())? {
        Line::Told => Ok(ExitCode::SUCCESS),
        Line::Unreadable => Ok(ExitCode::from(3)),
    }
}
