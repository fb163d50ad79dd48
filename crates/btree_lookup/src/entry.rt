//! The search of a leaf.
//!
//! Nothing that is loaded is trusted: the leaf may be stored into meanwhile. What a search found is
//! said of the leaf that has the words that were loaded.
ghost use Rattle.std.specs.Prelude.{◌≡◌, ℕ, ◌<◌, ◌≤◌, Some};
ghost use Rattle.word_rule.specs.CallerData.{CallerData};
ghost use Rattle.btree_lookup.specs.Visits.{IsEntry, SeesBegun, SeesEntry, SeesLater, Way};
ghost use Rattle.btree_lookup.specs.Visits.{entry_member};

use crate::visit::{Visit, where_holds};
use reg_model::{Member, Span};
use tree_shape::ENTRIES;
use word_rule::places::{COUNT, ENTRY_WORDS, FIRST};
use word_rule::{Looker, Words};

/// The first entry's base, its size and its payload. The next entry stands three words on.
const BASE: u32 = FIRST;

const SIZE: u32 = FIRST + 1;

const PAYLOAD: u32 = FIRST + 2;

/// How many entries begin at or below an address, and where the last of them begins.
#[derive(Clone, Copy)]
pub struct Begun {
    pub count: u32,
    pub base: u64,
}

/// What the words of a leaf say of an entry.
#[derive(Clone, Copy)]
pub struct SeenEntry {
    pub base: u64,
    pub size: u64,
    pub payload: u64,
}

impl SeenEntry {
    /// The member that is meant. None where there is no such span or payload, as no leaf has it.
    pub fn member(self) -> Option<Member>
        ensures { IsEntry self → result ≡ Some (entry_member self) }
    {
        let span = Span::new(self.base, self.size)?;
        if self.payload > u32::MAX as u64 {
            return None;
        }
        let payload = self.payload as u32;
        Some(Member { span, payload })
    }
}

/// How many entries after the first one begin at or below the address, up to one that doesn't. All
/// are looked at, also those behind the count: so no branch depends on the address.
#[inline(always)]
fn later_begun<L: Looker>(words: &Words, me: &mut L, visit: Visit, pc: u64) -> u32
    requires table { (L.known me.old).table ≡ words.now.table }
    requires inside { visit.node < words.now.terms.nodes }
    ensures table { (L.known me.new).table ≡ (L.known me.old).table }
    ensures later { (k : CallerData) → (count : ℕ)
        → SeesLater words.now.terms pc k visit count 0 0 (L.known me.old)
        → SeesLater words.now.terms pc k visit count 9 result (L.known me.new) }
{
    let mut later = 0;
    let mut ahead = 1;
    for at in 0..ENTRIES as u32 - 1 {
        let next = me.load_node(words, visit.node, BASE + ENTRY_WORDS * (at + 1));
        ahead = where_holds(ahead, next <= pc);
        later += ahead;
    }
    later
}

/// The entries that begin at or below the address: they stand before the others.
fn begun_at<L: Looker>(words: &Words, me: &mut L, visit: Visit, pc: u64) -> Begun
    requires table { (L.known me.old).table ≡ words.now.table }
    requires inside { visit.node < words.now.terms.nodes }
    ensures table { (L.known me.new).table ≡ (L.known me.old).table }
    ensures few { result.count ≤ 10 }
    ensures below { result.base ≤ pc }
    ensures begun { (k : CallerData) → Way words.now.terms pc k visit (L.known me.old)
        → SeesBegun words.now.terms pc k visit result (L.known me.new) }
{
    let none = Begun { count: 0, base: 0 };
    let count = me.load_node(words, visit.node, COUNT).min(ENTRIES as u64) as u32;
    if count == 0 {
        return none;
    }
    let place = later_begun(words, me, visit, pc).min(count - 1);
    let base = me.load_node(words, visit.node, BASE + ENTRY_WORDS * place);
    if base > pc {
        return none;
    }
    Begun {
        count: place + 1,
        base,
    }
}

/// The entry that contains the address: the last one that begins at or below it, where it is long
/// enough.
pub fn entry_at<L: Looker>(words: &Words, me: &mut L, visit: Visit, pc: u64) -> Option<SeenEntry>
    requires table { (L.known me.old).table ≡ words.now.table }
    requires inside { visit.node < words.now.terms.nodes }
    ensures table { (L.known me.new).table ≡ (L.known me.old).table }
    ensures entry { (k : CallerData) → visit.level ≡ 0
        → Way words.now.terms pc k visit (L.known me.old)
        → SeesEntry words.now.terms pc k visit result (L.known me.new) }
{
    let Begun { count, base } = begun_at(words, me, visit, pc);
    if count == 0 {
        return None;
    }
    let place = ENTRY_WORDS * (count - 1);
    let size = me.load_node(words, visit.node, SIZE + place);
    if pc - base >= size {
        return None;
    }
    let payload = me.load_node(words, visit.node, PAYLOAD + place);
    Some(SeenEntry {
        base,
        size,
        payload,
    })
}
