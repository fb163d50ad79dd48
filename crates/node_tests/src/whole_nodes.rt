ghost use Rattle.std.specs.Prelude.{◌≡◌, ◌+◌, ◌*◌, ◌<◌, ◌≤◌, [], true, IsTrue};
ghost use Rattle.tree_laws.specs.Numbers.{is_among};
ghost use Rattle.word_rule.specs.CallerData.{surplus};
ghost use Rattle.free_list.specs.Free.{HoldsOut};

use crate::free_nodes::{gives, taken};
use node_store::{CONTENT_WORDS, Sight, check, peek, write_held};
use reg_model::{Member, Span};
use std::sync::Wait;
use std::test::Fail;
use std::thread::{Threads, join};
use tree_shape::{Content, ENTRIES, Node};
use word_rule::{Caller, Words, places};

// Where the entries of a leaf begin among its content words, and how many words one has.
const FIRST: usize = places::FIRST as usize;

const ENTRY_WORDS: usize = places::ENTRY_WORDS as usize;

// How often each of two threads writes.
const TURNS: u32 = 1000;

// What the versions of the three free nodes add up to when both are done.
const LAST: u64 = 8000;

// How often a third looks, at most.
const LOOKS: u32 = 50_000_000;

const KIND: u32 = 1;

const FREE: u64 = 2;

// By how much the high fence is above the low one, and the size of each entry.
const WIDTH: u64 = 7;

// A leaf whose fences and entries all say the same number.
fn full_leaf(low: u32) -> Option<Node> {
    let span = Span::new(low as u64, WIDTH)?;
    let entry = Member { span, payload: low };
    Some(Node {
        level: 0,
        low: low as u64,
        high: low as u64 + WIDTH,
        content: Content::Leaf {
            count: ENTRIES as u32,
            entries: [entry; ENTRIES],
        },
    })
}

// Writes a free node that was taken.
fn write_taken(words: &Words, me: &mut Caller, node: u32, content: &Node) -> bool
    requires table { me.old.table ≡ words.now.table }
    requires inside { node < words.now.terms.nodes }
    requires holds { HoldsOut me.old.log }
    requires out { IsTrue (is_among me.old.log.holdings.out node) }
    ensures table { me.new.table ≡ me.old.table }
    ensures surplus { surplus me.new ≡ surplus me.old }
    ensures holds { HoldsOut me.new.log }
    ensures out { me.new.log.holdings.out ≡ me.old.log.holdings.out }
{
    let kind = words.load_node(me, node, KIND);
    write_held(words, me, node, content);
    kind == FREE
}

// Takes the first free node, writes it and puts it back. It is free then, and its other words are
// as they were written.
fn turn<R: Wait>(rt: &R, words: &Words, me: &mut Caller, content: &Node) -> bool
    requires table { me.old.table ≡ words.now.table }
    requires nodes { words.now.terms.nodes ≡ 4 }
    requires holds { HoldsOut me.old.log }
    requires out { me.old.log.holdings.out ≡ [] }
    requires surplus { 0 < surplus me.old }
    ensures table { me.new.table ≡ me.old.table }
    ensures surplus { surplus me.old ≤ surplus me.new + 1 }
    ensures holds { HoldsOut me.new.log }
    ensures out { result ≡ true → me.new.log.holdings.out ≡ [] }
{
    let Some(node) = taken(rt, words, me) else {
        return false;
    };
    if node >= 4 {
        return false;
    }
    let was_free = write_taken(words, me, node, content);
    gives(rt, words, me, node);
    was_free
}

// Writes a thousand times, and says whether each time a free node was there to be taken.
fn write_often<R: Wait>(rt: &R, words: &Words, mut me: Caller, first: u32) -> bool
    requires table { me.table ≡ words.now.table }
    requires nodes { words.now.terms.nodes ≡ 4 }
    requires holds { HoldsOut me.log }
    requires out { me.log.holdings.out ≡ [] }
    requires first { first ≤ 1_000_000 }
    requires surplus { 1000 ≤ surplus me }
{
    for step in 0..TURNS {
        let Some(content) = full_leaf(first + step) else {
            return false;
        };
        if !turn(rt, words, &mut me, &content) {
            return false;
        }
    }
    true
}

// Whether all entries that were written last say this number.
fn is_filled(words: &[u64; CONTENT_WORDS], low: u64) -> bool {
    for slot in 1..ENTRIES {
        if words[FIRST + ENTRY_WORDS * slot - 1] != low
            || words[FIRST + ENTRY_WORDS * slot + 1] != low
        {
            return false;
        }
    }
    true
}

// Whether a node is free, and its fences and its other words are the first ones or were written
// by one write.
fn is_whole(sight: &Sight, node: &Node) -> bool {
    let at_first = node.low == 0 && node.high == u64::MAX;
    let pair = node.low.checked_add(WIDTH) == Some(node.high);
    matches!(node.content, Content::Free { .. })
        && (at_first || pair)
        && is_filled(&sight.words, node.low)
}

// Looks at a node: the version of a sight that was checked, and whether it was whole.
fn look(words: &Words, me: &mut Caller, node: u32) -> Option<(u64, bool)>
    requires table { me.old.table ≡ words.now.table }
    requires inside { node < words.now.terms.nodes }
    ensures table { me.new.table ≡ me.old.table }
{
    let Ok(sight) = peek(words, me, node) else {
        return None;
    };
    let Ok(node) = check(words, me, &sight) else {
        return None;
    };
    Some((sight.version, is_whole(&sight, &node)))
}

// Looks at each of the three free nodes: whether all sights were whole, once both are done.
fn look_around(words: &Words, me: &mut Caller) -> Option<bool>
    requires table { me.old.table ≡ words.now.table }
    requires nodes { words.now.terms.nodes ≡ 4 }
    ensures table { me.new.table ≡ me.old.table }
{
    let (first, one) = look(words, me, 1)?;
    let (second, two) = look(words, me, 2)?;
    let (third, three) = look(words, me, 3)?;
    let whole = one && two && three;
    if !whole || first.saturating_add(second).saturating_add(third) == LAST {
        Some(whole)
    } else {
        None
    }
}

// Looks at them until both are done, and says whether each sight that was checked was whole.
fn look_on(words: &Words, mut me: Caller) -> bool
    requires table { me.table ≡ words.now.table }
    requires nodes { words.now.terms.nodes ≡ 4 }
{
    for step in 0..LOOKS {
        if let Some(whole) = look_around(words, &mut me) {
            return whole;
        }
    }
    false
}

fn two_write<R: Threads + Wait + Sync>(rt: &R, words: &Words, a: Caller, b: Caller) -> bool
    requires tables { (a.table ≡ words.now.table) × (b.table ≡ words.now.table) }
    requires nodes { words.now.terms.nodes ≡ 4 }
    requires holds { HoldsOut a.log × HoldsOut b.log }
    requires out { (a.log.holdings.out ≡ []) × (b.log.holdings.out ≡ []) }
    requires surplus { (1000 ≤ surplus a) × (1000 ≤ surplus b) }
{
    let (first, second) = join(
        rt,
        || -> bool
            requires { (a.table ≡ words.now.table) × (words.now.terms.nodes ≡ 4)
                × HoldsOut a.log × (a.log.holdings.out ≡ []) × (1000 ≤ surplus a) }
        { write_often(rt, words, a, 1) },
        || -> bool
            requires { (b.table ≡ words.now.table) × (words.now.terms.nodes ≡ 4)
                × HoldsOut b.log × (b.log.holdings.out ≡ []) × (1000 ≤ surplus b) }
        { write_often(rt, words, b, 1_000_000) },
    );
    first && second
}

fn one_looks_on<R: Threads + Wait + Sync>(
    rt: &R,
    words: &Words,
    a: Caller,
    b: Caller,
    c: Caller,
) -> (bool, bool)
    requires tables { (a.table ≡ words.now.table) × (b.table ≡ words.now.table)
        × (c.table ≡ words.now.table) }
    requires nodes { words.now.terms.nodes ≡ 4 }
    requires holds { HoldsOut a.log × HoldsOut b.log }
    requires out { (a.log.holdings.out ≡ []) × (b.log.holdings.out ≡ []) }
    requires surplus { (1000 ≤ surplus a) × (1000 ≤ surplus b) }
{
    join(
        rt,
        || -> bool
            requires { (a.table ≡ words.now.table) × (b.table ≡ words.now.table)
                × (words.now.terms.nodes ≡ 4) × (HoldsOut a.log × HoldsOut b.log)
                × ((a.log.holdings.out ≡ []) × (b.log.holdings.out ≡ []))
                × ((1000 ≤ surplus a) × (1000 ≤ surplus b)) }
        { two_write(rt, words, a, b) },
        || -> bool
            requires { (c.table ≡ words.now.table) × (words.now.terms.nodes ≡ 4) }
        { look_on(words, c) },
    )
}

#[test]
fn a_checked_sight_is_of_a_node_that_was_once_whole(rt: HostRuntime) -> Result<(), Fail> {
    let alloc = rt.alloc();
    let (words, mut a) = Words::new(alloc, 4, 1, 1, Vec::new(alloc))?;
    let b = words.split(&mut a, 1)?;
    let c = words.split(&mut a, 1)?;
    let (wrote, whole) = one_looks_on(&rt, &words, a, b, c);
    assert!(rt; wrote);
    assert!(rt; whole);
    Ok(())
}
