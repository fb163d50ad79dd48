//! A try to look an address up in the tree.
ghost use Rattle.std.specs.Prelude.{◌≡◌, ◌+◌, ◌<◌, ◌≤◌, [], length, IfSome, IsOk, option_map};
ghost use Rattle.reg_model.specs.Receipt.{member_of, stamp_of};
ghost use Rattle.word_rule.specs.CallerData.{CallerData};
ghost use Rattle.word_rule.specs.Callers.{IsAlone};
ghost use Rattle.btree_lookup.specs.Tries.{TriesTree};
ghost use Rattle.btree_lookup.specs.Visits.{IsEntry, Way, entry_member};

use crate::entry::{self, SeenEntry};
use crate::visit::{self, Visit};
use reg_model::{Again, Found};
use word_rule::places::{COUNT, updates_at};
use word_rule::{Ask, Looker, Words};

/// The answer at a stamp.
fn answer(entry: Option<SeenEntry>, stamp: u32) -> Found
    ensures stamp { stamp_of result ≡ stamp }
    ensures member { IfSome entry IsEntry
        → member_of result ≡ option_map entry_member entry }
{
    match entry {
        Some(entry) => match entry.member() {
            Some(member) => Found::Hit { member, stamp },
            None => Found::Miss { stamp },
        },
        None => Found::Miss { stamp },
    }
}

/// What the leaf says, where its version is found again after the clock was loaded.
fn leaf<L: Looker>(words: &Words, me: &mut L, visit: Visit, pc: u64) -> Result<Found, Again>
    requires table { (L.known me.old).table ≡ words.now.table }
    requires inside { visit.node < words.now.terms.nodes }
    ensures table { (L.known me.new).table ≡ (L.known me.old).table }
    ensures tries { (k : CallerData) → visit.level ≡ 0
        → Way words.now.terms pc k visit (L.known me.old)
        → TriesTree words.now.terms pc k (L.known me.new) result }
    ensures terms { (k : CallerData) → visit.level ≡ 0
        → Way words.now.terms pc k visit (L.known me.old)
        → IsOk result → k.log.terms ≡ words.now.terms }
    ensures alone { (k : CallerData) → visit.level ≡ 0
        → Way words.now.terms pc k visit (L.known me.old)
        → IsAlone k.log.lineage → IsOk result }
{
    let entry = entry::entry_at(words, me, visit, pc);
    let clock = me.load_clock(words, Ask::Nothing);
    let second = me.load_version(words, visit.node, Ask::Registered { pc });
    if second != visit.version {
        return Err(visit::changed(words, visit, second));
    }
    Ok(answer(entry, updates_at(clock)))
}

/// Looks an address up once among the registered members: the one that contains it, at the stamp
/// of a load of the clock in this call. Again where a version was found changed or locked on the
/// way. It takes no lock, stores nothing and waits for nobody.
pub fn try_find<L: Looker>(words: &Words, me: &mut L, pc: u64) -> Result<Found, Again>
    requires table { (L.known me.old).table ≡ words.now.table }
    ensures tries { TriesTree words.now.terms pc (L.known me.old) (L.known me.new) result }
    ensures terms { IsOk result → (L.known me.old).log.terms ≡ words.now.terms }
    ensures alone { IsAlone (L.known me.old).log.lineage → (L.known me.old).log.holdings.held ≡ []
        → IsOk result }
    ensures writes { (L.known me.new).log.trace.writes ≡ (L.known me.old).log.trace.writes }
    ensures few { length (L.known me.new).log.trace.loads
        ≤ length (L.known me.old).log.trace.loads + 500 }
{
    let mut visit = visit::root(words, me)?;
    while visit.level > 0 {
        let count = me.load_node(words, visit.node, COUNT);
        let Visit {
            node,
            version,
            level,
        } = visit::descend(words, me, visit, count, pc)?;
        // by its parts, as it was stored: one wide load over several stores waits for all of them
        visit = Visit {
            node,
            version,
            level,
        };
    }
    leaf(words, me, visit, pc)
}
