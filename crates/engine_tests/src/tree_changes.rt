//! Updates are made one by one, in a registry and over plain lists, which answer alike; after each
//! the nodes are looked at: so it is seen that nodes were split, joined and shared, fences moved,
//! and the root lifted and sunk.

ghost use Rattle.std.specs.Prelude.{◌≡◌, ◌≤◌};
ghost use Rattle.word_rule.specs.Callers.{IsIdle};

use reg_model::{PlainRegistry, Update};
use registry_core::Registry;
use std::alloc::Global;
use std::sync::Wait;
use std::test::Fail;
use word_rule::Caller;

/// The payloads of the updates are below it.
const PAYLOADS: u32 = 1024;

/// The nodes of the registry in which updates are made again: enough for all.
const NODES: u32 = 512;

/// The updates that plain lists are asked for at most.
const MOST: u32 = 100_000;

/// A node, where it is one of the tree.
#[derive(Clone, Copy, PartialEq, Eq)]
struct Look {
    level: u64,
    high: u64,
}

/// All nodes, those of the tree as they are.
fn look_at(alloc: Global, registry: &Registry, me: &mut Caller) -> Result<Vec<Option<Look>>, Fail>
    requires table { me.old.table ≡ registry.now.table }
    requires idle { IsIdle me.old.log }
    requires nodes { NODES ≤ registry.now.terms.nodes }
    ensures table { me.new.table ≡ me.old.table }
    ensures idle { IsIdle me.new.log }
{
    let mut nodes = Vec::new(alloc);
    for node in 0..NODES {
        // A node's words: its kind, which is 2 where it is free, its level, and its high fence.
        let kind = registry.words().load_node(me, node, 1);
        let level = registry.words().load_node(me, node, 2);
        let high = registry.words().load_node(me, node, 4);
        nodes.push(if kind == 2 {
            None
        } else {
            Some(Look { level, high })
        })?;
    }
    Ok(nodes)
}

fn tree_nodes(nodes: &[Option<Look>]) -> usize {
    nodes.iter().filter(|node| node.is_some()).count()
}

fn root_level(nodes: &[Option<Look>]) -> u64 {
    match nodes.first() {
        Some(Some(root)) => root.level,
        _ => 0,
    }
}

/// What an update made of the nodes.
#[derive(Clone, Copy, Debug, PartialEq, Eq)]
pub enum TreeChange {
    Kept,
    Split,
    Joined,
    Shared,
    Fence,
    Lifted,
    Sunk,
}

/// The root was lifted or sunk where its level changed; else nodes were split or joined where there
/// are more or fewer; else, where a fence is another, a registration moved it, and a removal shared
/// two nodes.
fn kind_of(update: &Update, before: &[Option<Look>], after: &[Option<Look>]) -> TreeChange {
    let (low, high) = (root_level(before), root_level(after));
    let (few, many) = (tree_nodes(before), tree_nodes(after));
    if high > low {
        return TreeChange::Lifted;
    }
    if high < low {
        return TreeChange::Sunk;
    }
    if many > few {
        return TreeChange::Split;
    }
    if many < few {
        return TreeChange::Joined;
    }
    if before == after {
        return TreeChange::Kept;
    }
    match update {
        Update::Register { .. } => TreeChange::Fence,
        _ => TreeChange::Shared,
    }
}

/// Makes an update in both, and says whether they answer alike. Those of the loader are none.
fn answers_alike<R: Wait>(
    rt: &R,
    registry: &Registry,
    me: &mut Caller,
    lists: &mut PlainRegistry,
    update: &Update,
) -> Result<bool, Fail>
    requires table { me.old.table ≡ registry.now.table }
    requires idle { IsIdle me.old.log }
    requires payloads { PAYLOADS ≤ registry.now.terms.payloads }
    ensures table { me.new.table ≡ me.old.table }
    ensures idle { IsIdle me.new.log }
{
    if lists.updates() >= MOST {
        return Ok(false);
    }
    match update {
        Update::Register { member } => {
            if member.payload >= PAYLOADS {
                return Ok(false);
            }
            let answer = registry.register(rt, me, *member);
            Ok(lists.register(*member)? == answer)
        }
        Update::Deregister { base } => {
            let answer = registry.deregister(rt, me, *base);
            Ok(lists.deregister(*base) == answer)
        }
        Update::Replace { member } => {
            if member.payload >= PAYLOADS {
                return Ok(false);
            }
            let answer = registry.replace(rt, me, *member);
            Ok(lists.replace(*member) == answer)
        }
        Update::Load { .. } | Update::Unload { .. } => Ok(false),
    }
}

/// What each of the updates made of the nodes, one after another.
pub fn kinds_of<R: Wait>(
    rt: &R,
    alloc: Global,
    updates: &[Update],
) -> Result<Vec<TreeChange>, Fail> {
    let (registry, mut me) = Registry::new(alloc, NODES, 1, PAYLOADS, Vec::new(alloc))?;
    kinds_in(rt, alloc, &registry, &mut me, updates)
}

fn kinds_in<R: Wait>(
    rt: &R,
    alloc: Global,
    registry: &Registry,
    me: &mut Caller,
    updates: &[Update],
) -> Result<Vec<TreeChange>, Fail>
    requires table { me.old.table ≡ registry.now.table }
    requires idle { IsIdle me.old.log }
    requires nodes { NODES ≤ registry.now.terms.nodes }
    requires payloads { PAYLOADS ≤ registry.now.terms.payloads }
{
    let mut lists = PlainRegistry::new(alloc, Vec::new(alloc), 1);
    let mut kinds = Vec::new(alloc);
    let mut before = look_at(alloc, registry, me)?;
    for update in updates {
        if !answers_alike(rt, registry, me, &mut lists, update)? {
            Err("an update that both don't answer alike")?;
        }
        let after = look_at(alloc, registry, me)?;
        kinds.push(kind_of(update, &before, &after))?;
        before = after;
    }
    Ok(kinds)
}
