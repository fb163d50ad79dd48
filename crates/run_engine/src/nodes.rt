//! How many nodes the registry of a script takes: no more than its updates or its images can fill,
//! so that a small script doesn't pay for the most that it may have.

ghost use Rattle.std.specs.Prelude.{◌≡◌, ◌⊎◌, ◌+◌, ◌-◌, ◌*◌, ◌<◌, ◌≤◌, length, All};
ghost use Rattle.std.specs.List.{sum_by};
ghost use Rattle.script_text.specs.declared.limits.TheConstants.{LEAST_NODES, MOST_NODES};
ghost use Rattle.script_text.specs.declared.limits.TheConstants.{MOST_ROUNDS};
ghost use Rattle.run_engine.specs.Nodes.{IsFew, callers_asked, members_asked};
ghost use Rattle.run_engine.specs.Played.{updates_in};

use crate::rounds::updates_in;
use event_script::{Round, Thread};

/// How many updates the threads of a round ask for.
fn updates_in_round(threads: &[Thread]) -> u32
    requires { IsFew threads.now }
    ensures { result ≡ sum_by updates_in threads.now }
{
    let mut count = 0;
    for thread in threads {
        count += updates_in(&thread.events);
    }
    count
}

/// Of the nodes that a script may have as many as its members can fill: no more are ever registered
/// than there are updates, nor than there are images.
pub fn nodes_for(most: u32, images: u32, rounds: &[Round]) -> u32
    requires nodes { (LEAST_NODES ≤ most) × (most ≤ MOST_NODES) }
    requires few { (length rounds.now ≤ MOST_ROUNDS) × All IsFew rounds.now }
    ensures bounds { (LEAST_NODES ≤ result) × (result ≤ most) }
    ensures enough { (result ≡ most)
        ⊎ (members_asked rounds.now images + 2 < 2 * (result - 4 * callers_asked rounds.now)) }
{
    let mut callers = 1;
    let mut updates = 0;
    for round in rounds {
        callers += round.threads.len() as u32;
        updates += updates_in_round(&round.threads);
    }
    let members = updates.min(images);
    most.min(4 * callers + members / 2 + 2)
}
