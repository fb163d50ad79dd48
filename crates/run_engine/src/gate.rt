//! A gate that each event passes.

use event_script::Answer;
use std::sync::Wait;

/// What is called around each event, by the thread that runs it. Tests see the answers there, and
/// hold threads back.
pub trait Gate {
    /// Called before an event with None, and after it with its answer. Rounds, threads and events
    /// count from 1.
    fn pass<R: Wait>(&self, rt: &R, round: u32, thread: u32, event: u32, answer: Option<&Answer>);

    /// Whether it may wait there for other threads. Nobody keeps the turn through such a gate.
    fn holds_back(&self) -> bool;
}

/// Lets every event pass.
#[derive(Clone, Copy, Debug, PartialEq, Eq)]
pub struct NoGate;

impl Gate for NoGate {
    fn pass<R: Wait>(
        &self,
        _rt: &R,
        _round: u32,
        _thread: u32,
        _event: u32,
        _answer: Option<&Answer>,
    ) {}

    fn holds_back(&self) -> bool {
        false
    }
}
