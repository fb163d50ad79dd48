ghost use Rattle.std.specs.Prelude.{◌≡◌, ◌-◌, ◌^◌, ◌<◌, IfSome};
ghost use Rattle.tree_shape.specs.NodeData.{InOrder, IsInFences, IsInner};
ghost use Rattle.word_rule.specs.Steps.{MayStore};

use node_store::{high_of, outline_of, pair_of, slot_of, write_held};
use std::alloc::Global;
use tree_shape::{Content, Node, PAIRS, Pair};
use word_rule::{Caller, LockId, Words};

// An inner node with two children.
pub(crate) fn inner() -> Node
    ensures inner { IsInner result }
    ensures ordered { InOrder result }
    ensures low { result.low ≡ 0 }
    ensures high { result.high ≡ 2 ^ 64 - 1 }
{
    let mut pairs = [Pair {
        child: 0,
        separator: 0,
    }; PAIRS];
    pairs[0] = Pair {
        child: 3,
        separator: 0x140f,
    };
    pairs[1] = Pair {
        child: 2,
        separator: 0xffff_ffff_ffff_ffff,
    };
    Node {
        level: 1,
        low: 0,
        high: 0xffff_ffff_ffff_ffff,
        content: Content::Inner { count: 2, pairs },
    }
}

// Words of four nodes, and who holds the root.
pub(crate) fn root_held(alloc: Global) -> Option<(Words, Caller)>
    ensures table { IfSome result (λ made. made.1.table ≡ made.0.table) }
    ensures nodes { IfSome result (λ made. made.0.terms.nodes ≡ 4) }
    ensures payloads { IfSome result (λ made. made.0.terms.payloads ≡ 8) }
    ensures may { IfSome result (λ made. MayStore 0 made.1.log) }
{
    let (words, mut me) = Words::new(alloc, 4, 1, 8, Vec::new(alloc)).ok()?;
    words.take(&mut me, LockId::Node { node: 0 }).ok()?;
    Some((words, me))
}

// What is found of a node that was written into the root for an address.
#[derive(Clone, Copy, PartialEq, Eq)]
struct FoundSlot {
    level: u32,
    count: u64,
    slot: usize,
    child: u32,
    separator: u64,
    high: u64,
}

fn find_in_root(words: &Words, me: &mut Caller, content: &Node, pc: u64) -> FoundSlot
    requires table { me.old.table ≡ words.now.table }
    requires nodes { 0 < words.now.terms.nodes }
    requires may { MayStore 0 me.old.log }
    requires inner { IsInner content.now }
    requires ordered { InOrder content.now }
    requires here { IsInFences pc content.now }
{
    write_held(words, me, 0, content);
    let outline = outline_of(words, me, 0);
    let slot = slot_of(words, me, 0, &outline, pc);
    let pair = pair_of(words, me, 0, &outline, slot);
    let high = high_of(words, me, 0, &outline);
    FoundSlot {
        level: outline.level(),
        count: outline.count(),
        slot,
        child: pair.child,
        separator: pair.separator,
        high,
    }
}

#[test]
fn a_held_node_is_outlined(rt: HostRuntime) {
    let Some((words, mut a)) = root_held(rt.alloc()) else {
        panic!(rt; "nobody holds it")
    };
    let found = find_in_root(&words, &mut a, &inner(), 0x1410);
    let wanted = FoundSlot {
        level: 1,
        count: 2,
        slot: 1,
        child: 2,
        separator: 0xffff_ffff_ffff_ffff,
        high: 0xffff_ffff_ffff_ffff,
    };
    assert!(rt; found == wanted);
}
