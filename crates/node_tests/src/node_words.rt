ghost use Rattle.std.specs.Prelude.{◌≡◌, ◌-◌, ◌^◌, ◌<◌};
ghost use Rattle.tree_shape.specs.NodeData.{InOrder, IsInner};
ghost use Rattle.word_rule.specs.Steps.{MayStore};

use crate::outlines::{inner, root_held};
use node_store::{CONTENT_WORDS, check, node_of, peek, read_held, write_held};
use reg_model::{Again, Member, Span};
use std::test::Fail;
use tree_shape::{Content, Node, put_entry};
use word_rule::{Caller, LockId, Words};

// A leaf from 1000 to the last address with two entries, and words that don't matter.
fn leaf_words() -> [u64; CONTENT_WORDS] {
    let mut words = [9; CONTENT_WORDS];
    words[0] = 1;
    words[1] = 0;
    words[2] = 0x1000;
    words[3] = 0xffff_ffff_ffff_ffff;
    words[4] = 2;
    words[5] = 0x1000;
    words[6] = 0x20;
    words[7] = 7;
    words[8] = 0xffff_ffff_ffff_fff0;
    words[9] = 0xf;
    words[10] = 0xffff_ffff;
    words
}

#[test]
fn words_spell_a_leaf(rt: HostRuntime) -> Result<(), Fail> {
    let Some(node) = node_of(&leaf_words()) else {
        panic!(rt; "the words spell a leaf")
    };
    assert!(rt; node.level == 0 && node.low == 0x1000 && node.high == 0xffff_ffff_ffff_ffff);
    let Content::Leaf { count, entries } = &node.content else {
        panic!(rt; "a leaf")
    };
    assert!(rt; *count == 2 && entries[0].span.last() == 0x101f && entries[0].payload == 7);
    assert!(rt; entries[1].span.last() == 0xffff_ffff_ffff_fffe);
    assert!(rt; entries[1].payload == 0xffff_ffff);
    Ok(())
}

fn is_none_with(at: usize, value: u64) -> bool {
    let mut words = leaf_words();
    if at >= 1 && at <= CONTENT_WORDS {
        words[at - 1] = value;
    }
    node_of(&words).is_none()
}

#[test]
fn words_that_spell_no_node(rt: HostRuntime) -> Result<(), Fail> {
    assert!(rt; is_none_with(1, 3) && is_none_with(2, 0x1_0000_0000));
    assert!(rt; is_none_with(5, 11) && is_none_with(5, 0x1_0000_0002));
    assert!(rt; is_none_with(7, 0) && is_none_with(8, 0x1_0000_0000));
    assert!(rt; is_none_with(10, 0x10) && !is_none_with(10, 1) && !is_none_with(12, 0));
    Ok(())
}

// Writes an inner node into the root, which has nothing but zeros in its content before, and loads
// words of it.
fn written(words: &Words, me: &mut Caller, content: &Node) -> [u64; 7]
    requires table { me.old.table ≡ words.now.table }
    requires nodes { 0 < words.now.terms.nodes }
    requires may { MayStore 0 me.old.log }
    requires inner { IsInner content.now }
    requires ordered { InOrder content.now }
{
    write_held(words, me, 0, content);
    [
        words.load_node(me, 0, 1),
        words.load_node(me, 0, 5),
        words.load_node(me, 0, 6),
        words.load_node(me, 0, 7),
        words.load_node(me, 0, 8),
        words.load_node(me, 0, 9),
        words.load_node(me, 0, 10),
    ]
}

#[test]
fn words_of_an_inner_node(rt: HostRuntime) {
    let Some((words, mut a)) = root_held(rt.alloc()) else {
        panic!(rt; "nobody holds it")
    };
    let loaded = written(&words, &mut a, &inner());
    assert!(rt; loaded == [0, 2, 3, 0x140f, 2, 0xffff_ffff_ffff_ffff, 0]);
}

#[test]
fn a_sight_beside_a_lock(rt: HostRuntime) -> Result<(), Fail> {
    let alloc = rt.alloc();
    let (words, mut a) = Words::new(alloc, 4, 1, 1, Vec::new(alloc))?;
    let mut b = words.split(&mut a, 1)?;
    let root = LockId::Node { node: 0 };
    let Ok(sight) = peek(&words, &mut b, 0) else {
        panic!(rt; "nobody holds it")
    };
    assert!(rt; sight.node == 0 && sight.version == 0 && sight.words[3] == u64::MAX);
    let Ok(version) = words.take(&mut a, root) else {
        panic!(rt; "nobody holds it")
    };
    let held = read_held(&words, &mut a, 0);
    assert!(rt; version == 0 && held.level == 0 && held.high == u64::MAX);
    let changed = Again::Changed {
        word: 4,
        first: 0,
        second: 1,
    };
    assert!(rt; check(&words, &mut b, &sight).err() == Some(changed));
    assert!(rt; peek(&words, &mut b, 0) == Err(Again::Locked { word: 4, seen: 1 }));
    Ok(())
}

#[test]
fn a_sight_that_stands(rt: HostRuntime) -> Result<(), Fail> {
    let alloc = rt.alloc();
    let (words, mut a) = Words::new(alloc, 4, 1, 1, Vec::new(alloc))?;
    let Ok(sight) = peek(&words, &mut a, 3) else {
        panic!(rt; "nobody holds it")
    };
    let Ok(node) = check(&words, &mut a, &sight) else {
        panic!(rt; "nobody stored in it")
    };
    let Content::Free { next } = &node.content else {
        panic!(rt; "a free node")
    };
    assert!(rt; *next == 0);
    Ok(())
}

#[test]
fn a_held_node_is_written(rt: HostRuntime) {
    let Some((words, mut a)) = root_held(rt.alloc()) else {
        panic!(rt; "nobody holds it")
    };
    let Some(span) = Span::new(0x1000, 0x20) else {
        panic!(rt; "a span")
    };
    let leaf = Node::empty_leaf(0, 0xffff_ffff_ffff_ffff);
    let leaf = put_entry(&leaf, &Member { span, payload: 7 });
    write_held(&words, &mut a, 0, &leaf);
    let loaded = [
        words.load_node(&mut a, 0, 1),
        words.load_node(&mut a, 0, 5),
        words.load_node(&mut a, 0, 6),
        words.load_node(&mut a, 0, 7),
        words.load_node(&mut a, 0, 8),
        words.load_node(&mut a, 0, 9),
    ];
    assert!(rt; loaded == [1, 1, 0x1000, 0x20, 7, 0]);
}
