//! Threads that find each other in the way take turns.
//!
//! Threads that update one leaf of the tree undo each other's work. What one stores, all others
//! read again, and most of their tries find the leaf changed or locked: the more of them run, the
//! more processor time an update takes. So a call that has paused a few times waits for the turn,
//! which one thread of a round has at a time. That thread keeps it for some events, while the leaf
//! stays in its processor's cache, and those that wait for it sleep. Threads that meet nobody never
//! ask for it. Fewer threads at a contended place is how Dice and Kogan's "Avoiding Scalability
//! Collapse by Restricting Concurrency" (Euro-Par 2019) keeps locks fast.
//!
//! Handing the turn on costs as much as many events, and nobody uses a processor whose threads all
//! sleep. So a turn is short at first, and longer each time that its thread soon asks again. A
//! thread that begins while others sleep would be in the way as they were, and waits as well.
//!
//! Whoever has the turn has no more right to the tree than the others, and nothing is stored
//! because of it. So contracts don't speak of turns, and none promises that a thread gets on.
ghost use Rattle.std.specs.Prelude.{false};

use crossbeam_utils::Backoff;
use node_store::{Locking, Pausing, Waiting};
use std::cell::Cell;
use std::sync::Wait;
use std::sync::atomic::{AtomicU64, Ordering};
use word_rule::{Caller, LockId, Words};

/// Nobody has the turn.
const FREE: u64 = 0;

/// A thread has it, and no other sleeps until it is given back.
const TAKEN: u64 = 1;

/// A thread has it, and others may sleep until it is given back.
const AWAITED: u64 = 2;

/// For how many events a thread keeps a turn at first.
const SHORTEST: u32 = 16;

/// How many times longer its next turn is, where it soon asks for one again.
const GROWTH: u32 = 16;

/// For how many events it keeps a turn at the most.
const LONGEST: u32 = 4096;

/// After so many events without a turn its next one is short again.
const APART: u32 = 512;

/// How often a call pauses before it waits for the turn.
const PAUSES: u32 = 4;

/// The turn that the threads of a round share.
#[derive(Drop)]
pub struct Turns {
    state: AtomicU64,
}

impl Turns {
    /// Nobody has the turn.
    pub fn new() -> Turns {
        Turns {
            state: AtomicU64::new(FREE),
        }
    }

    /// Takes the turn, and sleeps while another thread has it.
    fn take<R: Wait>(&self, rt: &R) {
        let state = &self.state;
        if state
            .compare_exchange(FREE, TAKEN, Ordering::SeqCst, Ordering::SeqCst)
            .is_ok()
        {
            return;
        }
        // Others may sleep on when this one has the turn, so it leaves the word that wakes them.
        for _ in rt.forever() {
            if state.swap(AWAITED, Ordering::SeqCst) == FREE {
                return;
            }
            state.park(rt, AWAITED as u32);
        }
        unreachable!()
    }

    /// Whether others may sleep until it is given back.
    fn is_awaited(&self) -> bool {
        self.state.load(Ordering::SeqCst) == AWAITED
    }

    /// Gives the turn back, and wakes one that sleeps until then.
    fn give_back(&self) {
        if self.state.swap(FREE, Ordering::SeqCst) == AWAITED {
            self.state.wake_one();
        }
    }
}

/// A thread's part in the turns of its round. It ends, and gives back a turn that it has, on every
/// way out of the thread.
pub struct ThreadTurn<'a> {
    turns: &'a Turns,
    /// For how many events the thread still has the turn.
    left: Cell<u32>,
    /// For how many it will have the next one.
    next: Cell<u32>,
    /// How many it has played without one since its last.
    apart: Cell<u32>,
}

impl<'a> ThreadTurn<'a> {
    /// That of a thread that hasn't got the turn.
    pub fn new(turns: &'a Turns) -> ThreadTurn<'a> {
        ThreadTurn {
            turns,
            left: Cell::new(0),
            next: Cell::new(SHORTEST),
            apart: Cell::new(0),
        }
    }

    /// Whether the thread has the turn.
    fn is_held(&self) -> bool {
        self.left.get() > 0
    }

    /// Waits for the turn, which the thread hasn't got.
    fn wait<R: Wait>(&self, rt: &R) {
        self.turns.take(rt);
        let length = self.next.get();
        self.left.set(length);
        if length < LONGEST {
            self.next.set(length * GROWTH);
        }
        self.apart.set(0);
    }

    /// Comes before the first event of the thread: where others sleep for the turn, it waits too.
    pub fn begin<R: Wait>(&self, rt: &R) {
        if self.turns.is_awaited() {
            self.wait(rt);
        }
    }

    /// How one call of the thread waits.
    pub fn in_call<'b, R>(&'b self, rt: &'b R) -> InTurn<'b, 'a, R> {
        InTurn {
            rt,
            turn: self,
            pauses: Cell::new(0),
        }
    }

    /// Counts an event that was played. With the last of its turn the turn is given back.
    pub fn end_event(&self) {
        match self.left.get() {
            0 => self.end_apart(),
            1 => self.give_back(),
            left => self.left.set(left - 1),
        }
    }

    /// Counts an event that was played without the turn.
    fn end_apart(&self) {
        let apart = self.apart.get();
        if apart < APART {
            self.apart.set(apart + 1);
        } else {
            self.next.set(SHORTEST);
        }
    }

    /// Gives the turn back, where the thread has it.
    pub fn give_back(&self) {
        if self.is_held() {
            self.left.set(0);
            self.turns.give_back();
        }
    }
}

impl Drop for ThreadTurn<'_> {
    fn drop(self) {
        self.give_back();
        let ThreadTurn {
            turns: _,
            left: _,
            next: _,
            apart: _,
        } = self;
    }
}

/// Waits for each lock, as `Waiting` does. Where the call has found others in its way a few times,
/// it waits for the turn.
#[derive(Drop)]
pub struct InTurn<'b, 'a, R> {
    rt: &'b R,
    turn: &'b ThreadTurn<'a>,
    /// How often the call has paused.
    pauses: Cell<u32>,
}

impl<R: Wait> Pausing for InTurn<'_, '_, R> {
    fn pause(&self, backoff: &Backoff) {
        let pauses = self.pauses.get();
        if self.turn.is_held() {
            backoff.snooze();
        } else if pauses < PAUSES {
            self.pauses.set(pauses + 1);
            backoff.snooze();
        } else {
            self.turn.wait(self.rt);
        }
    }
}

impl<R: Wait> Locking for InTurn<'_, '_, R> {
    ghost gives_up = { false };

    fn take(&self, words: &Words, me: &mut Caller, id: LockId) -> bool {
        Waiting { rt: self.rt }.take(words, me, id)
    }

    fn let_go(&self, words: &Words, me: &mut Caller, id: LockId) {
        Waiting { rt: self.rt }.let_go(words, me, id)
    }

    fn let_go_same(&self, words: &Words, me: &mut Caller, id: LockId) {
        Waiting { rt: self.rt }.let_go_same(words, me, id)
    }

    fn rounds(&self) -> u64 {
        u64::MAX
    }

    fn rounds_back(&self) -> u64 {
        u64::MAX
    }

    fn give_up(&self) {
        Waiting { rt: self.rt }.give_up()
    }
}
