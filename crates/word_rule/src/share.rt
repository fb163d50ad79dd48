//! Shares of callers and notes: each is given a part of its maker's, and who has the whole is
//! alone.
ghost use Rattle.std.specs.Prelude.{◌≡◌, ◌+◌, ◌-◌, ◌<◌, ◌≤◌, ◌↔◌, IsTrue, IfOk, OnOk, OnErr};
ghost use Rattle.word_rule.specs.Shares.{WHOLE, part_of};

use reg_model::NoMemory;
use std::marker::Model;

/// What the first caller has.
const WHOLE: u128 = 1 << 127;

/// From here on an amount is large.
const LARGE: u128 = 1 << 40;

/// So many parts of a large amount are the whole of it.
const PARTS: u128 = 1 << 20;

/// What is given away of an amount: a small part of a large one, else a half, so that one maker
/// makes millions before it has little, and each of them some.
pub(crate) fn part(amount: u128) -> u128
    ensures { result ≡ part_of amount }
{
    if amount >= LARGE {
        amount / PARTS
    } else {
        amount / 2
    }
}

/// The same of an amount that is smaller.
pub(crate) fn small_part(amount: u64) -> u64
    ensures value { result ≡ part_of amount }
    ensures within { result ≤ amount }
{
    part(amount as u128) as u64
}

/// The share of a caller or a note, of which there is no second one.
#[derive(Drop)]
pub(crate) struct Share {
    amount: u128,
}

impl Model for Share {
    ghost use Rattle.std.specs.Prelude.{ℕ, ◌≤◌};
    ghost use Rattle.word_rule.specs.Shares.{WHOLE};

    ghost Value = { ℕ };

    ghost view = { λ s. s.amount };

    ghost invariant = { λ s. s.amount ≤ WHOLE };
}

impl Share {
    /// The first caller's.
    pub(crate) fn whole() -> Share
        ensures { result ≡ WHOLE }
    {
        Share { amount: WHOLE }
    }

    /// Gives a part away, unless there is too little.
    pub(crate) fn split(&mut self) -> Result<Share, NoMemory>
        ensures part { IfOk result
            (λ other. (other ≡ part_of self.old) × (self.new ≡ self.old - part_of self.old)) }
        ensures some { OnOk result (2 ≤ self.old) }
        ensures less { OnOk result (self.new < WHOLE) }
        ensures err { OnErr result (self.new ≡ self.old) }
    {
        if self.amount < 2 {
            return Err(NoMemory);
        }
        let given = part(self.amount);
        self.amount -= given;
        Ok(Share { amount: given })
    }

    /// Takes another in.
    pub(crate) fn join(&mut self, other: Share)
        requires { self.old + other ≤ WHOLE }
        ensures { self.new ≡ self.old + other }
    {
        self.amount += other.amount;
    }

    /// Whether it is all that there is.
    pub(crate) fn is_whole(&self) -> bool
        ensures { IsTrue result ↔ (self.now ≡ WHOLE) }
    {
        self.amount == WHOLE
    }
}
