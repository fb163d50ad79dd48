//! The way from the root down to a leaf, under locks: the root or a child is locked and outlined.
ghost use Rattle.std.specs.Prelude.{◌≡◌, ◌<◌, true, OnOk, IfOk, IfErr};
ghost use Rattle.tree_shape.specs.NodeData.{InOrder, IsInFences, IsInner};
ghost use Rattle.word_rule.specs.CallerData.{surplus};
ghost use Rattle.word_rule.specs.Callers.{IsIdle};
ghost use Rattle.node_store.specs.Holding.{SpellsHeld};
ghost use Rattle.version_locks.specs.Locking.{FoundBusy, IsBusy, Locks};
ghost use Rattle.node_store.specs.Outlines.{OnlyLoads};
ghost use Rattle.tree_descent.specs.Paths.{HasChildFor, HoldsNothing, StepsOnNodes};
ghost use Rattle.tree_descent.specs.Releases.{LetsGo, MayGo, Spends};
ghost use Rattle.tree_descent.specs.Removing.{HoldsAlone};
ghost use Rattle.tree_descent.specs.Stands.{HoldsChild, HoldsRoot};

use node_store::{Busy, Locking, Outline, outline_of, pair_of, read_held, slot_of};
use tree_shape::Node;
use word_rule::exchange::exchange_decided;
use word_rule::places::LEVEL;
use word_rule::{Ask, Caller, LockId, Words};

/// A node of the way down, held, in outline.
#[derive(Drop)]
pub struct Held {
    pub node: u32,
    pub content: Outline,
    /// Whether a word was stored under its lock.
    pub changed: bool,
}

/// A child that is held under its parent: that of the pair at the slot.
#[derive(Drop)]
pub struct Child {
    pub above: Held,
    pub at: Held,
    pub slot: usize,
}

/// What a held node holds.
pub fn content_of(words: &Words, me: &mut Caller, at: &Held) -> Node
    requires table { me.old.table ≡ words.now.table }
    requires inside { at.now.node < words.now.terms.nodes }
    requires spells { SpellsHeld at.now.node at.now.content me.old.log }
    ensures content { result ≡ at.now.content }
    ensures steps { StepsOnNodes me.old me.new }
    ensures holdings { me.new.log.holdings ≡ me.old.log.holdings }
{
    read_held(words, me, at.node)
}

/// Takes a node's lock, or answers that it is taken.
pub fn take_node<L: Locking>(
    locking: &L,
    words: &Words,
    me: &mut Caller,
    node: u32,
) -> Result<(), Busy>
    requires table { me.old.table ≡ words.now.table }
    requires inside { node < words.now.terms.nodes }
    ensures ok { OnOk result (Locks (LockId.Node node) me.old me.new) }
    ensures busy { IfErr result (λ e. (e ≡ Busy.Taken (LockId.Node node))
        × IsBusy (LockId.Node node) me.old me.new × (L.gives_up ≡ true)) }
{
    let lock = LockId::Node { node };
    if locking.take(words, me, lock) {
        Ok(())
    } else {
        Err(Busy::Taken { lock })
    }
}

/// Lets go of a node that is held, with the next version where a word was stored under its lock.
pub fn let_go_of<L: Locking>(locking: &L, words: &Words, me: &mut Caller, node: u32, changed: bool)
    requires table { me.old.table ≡ words.now.table }
    requires inside { node < words.now.terms.nodes }
    requires may { MayGo node changed me.old.log.holdings }
    requires surplus { 0 < surplus me.old }
    ensures { LetsGo node me.old me.new }
{
    exchange_decided();
    let lock = LockId::Node { node };
    if changed {
        locking.let_go(words, me, lock);
    } else {
        locking.let_go_same(words, me, lock);
    }
}

/// The child of a held inner node to which an address leads.
pub fn child_for(words: &Words, me: &mut Caller, at: &Held, pc: u64) -> u32
    requires table { me.old.table ≡ words.now.table }
    requires inside { at.now.node < words.now.terms.nodes }
    requires spells { SpellsHeld at.now.node at.now.content me.old.log }
    requires inner { IsInner at.now.content }
    requires ordered { InOrder at.now.content }
    requires here { IsInFences pc at.now.content }
    ensures child { HasChildFor at.now.content pc result }
    ensures loads { OnlyLoads me.old me.new }
{
    let slot = slot_of(words, me, at.node, &at.content, pc);
    pair_of(words, me, at.node, &at.content, slot).child
}

/// Takes the root, and outlines it.
pub fn at_root<L: Locking>(locking: &L, words: &Words, me: &mut Caller) -> Result<Held, Busy>
    requires table { me.old.table ≡ words.now.table }
    requires idle { IsIdle me.old.log }
    ensures ok { IfOk result (λ at. HoldsRoot words.now.terms at me.new.log.holdings) }
    ensures busy { IfErr result (λ e. HoldsNothing me.new.log.holdings × (L.gives_up ≡ true)) }
    ensures cause { IfErr result (λ e. FoundBusy e me.old me.new) }
    ensures same { StepsOnNodes me.old me.new }
    ensures terms { me.old.log.terms ≡ words.now.terms }
{
    let node = 0;
    let _some = words.nodes();
    words.load_version(me, LockId::Node { node }, Ask::Nothing);
    take_node(locking, words, me, node)?;
    // By this load it is known that what is held is of a tree, so that the root has all addresses.
    words.load_node(me, node, LEVEL);
    let content = outline_of(words, me, node);
    Ok(Held {
        node,
        content,
        changed: false,
    })
}

/// Locks and outlines the child for an address, under a node that is held alone.
pub fn take_child<L: Locking>(
    locking: &L,
    words: &Words,
    me: &mut Caller,
    above: Held,
    pc: u64,
) -> Result<Child, Busy>
    requires table { me.old.table ≡ words.now.table }
    requires terms { me.old.log.terms ≡ words.now.terms }
    requires alone { HoldsAlone words.now.terms above me.old.log.holdings }
    requires inner { 0 < above.content.level }
    requires here { IsInFences pc above.content }
    requires surplus { 0 < surplus me.old }
    ensures ok { IfOk result (λ child. HoldsChild words.now.terms child pc me.new.log.holdings
        × (child.above ≡ above)) }
    ensures busy { IfErr result (λ e. HoldsNothing me.new.log.holdings × (L.gives_up ≡ true)) }
    ensures cause { IfErr result (λ e. FoundBusy e me.old me.new) }
    ensures spends { Spends 1 me.old me.new }
    ensures free { IfOk result (λ child. Spends 0 me.old me.new) }
{
    let slot = slot_of(words, me, above.node, &above.content, pc);
    let node = pair_of(words, me, above.node, &above.content, slot).child;
    if let Err(busy) = take_node(locking, words, me, node) {
        let_go_of(locking, words, me, above.node, above.changed);
        return Err(busy);
    }
    let content = outline_of(words, me, node);
    let at = Held {
        node,
        content,
        changed: false,
    };
    Ok(Child { above, at, slot })
}
