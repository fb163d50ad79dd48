//! A lookup of the loader's half.
ghost use Rattle.std.specs.Prelude.{◌≡◌, ℕ, ◌+◌, ◌^◌, ◌<◌, ◌≤◌, IfSome, IsOk, option_map};
ghost use Rattle.reg_model.specs.Receipt.{member_of, stamp_of};
ghost use Rattle.word_rule.specs.Callers.{IsAlone};
ghost use Rattle.array_publish.specs.CopyLoads.{IsAtCopy, LoadsCopy, load_count};
ghost use Rattle.array_publish.specs.Search.{IsMember, IsObjectAt, listed_member};
ghost use Rattle.array_publish.specs.Lookup.{LooksUp};

use crate::copies::Listed;
use crate::fixed;
use crate::search::listed_at;
use reg_model::{Again, Found};
use word_rule::places::{CLOCK, LOWER, updates_at};
use word_rule::{Ask, Looker, Words};

/// The fixed member that contains the address, or else the one that a copy lists.
fn object_at<L: Looker>(words: &Words, me: &mut L, copy: u32, pc: u64) -> Option<Listed>
    requires copy { IsAtCopy words.now copy (L.known me.old) }
    ensures loads { LoadsCopy words.now.terms copy (L.known me.old) (L.known me.new) }
    ensures found { IsObjectAt words.now.terms copy (L.known me.new) words.now.terms.fixed pc
        result }
    ensures few { load_count (L.known me.new) ≤ load_count (L.known me.old) + 33 }
{
    match fixed::containing(words.fixed(), pc) {
        Some(member) => Some(Listed::of(&member)),
        None => listed_at(words, me, copy, pc),
    }
}

/// The answer at a stamp.
fn answer(object: Option<Listed>, stamp: u32) -> Found
    requires { IfSome object IsMember }
    ensures member { member_of result ≡ option_map listed_member object }
    ensures stamp { stamp_of result ≡ stamp }
{
    match object {
        Some(object) => Found::Hit {
            member: object.member(),
            stamp,
        },
        None => Found::Miss { stamp },
    }
}

/// Looks an address up among the fixed and the loaded members: the one that contains it, at the
/// stamp of this call's second load of the clock. Again where the loader published between the two
/// loads. It takes no lock, stores nothing and waits for nobody.
pub fn try_object<L: Looker>(words: &Words, me: &mut L, pc: u64) -> Result<Found, Again>
    requires table { (L.known me.old).table ≡ words.now.table }
    ensures looks { LooksUp words.now.terms pc (L.known me.old) (L.known me.new) result }
    ensures alone { IsAlone (L.known me.old).log.lineage → IsOk result }
    ensures writes { (L.known me.new).log.trace.writes ≡ (L.known me.old).log.trace.writes }
    ensures few { load_count (L.known me.new) ≤ load_count (L.known me.old) + 36 }
{
    let first = me.load_clock(words, Ask::Nothing);
    let published = first / LOWER;
    let object = object_at(words, me, (published % 2) as u32, pc);
    let second = me.load_clock(words, Ask::Loaded { pc });
    if second / LOWER != published {
        return Err(Again::Changed {
            word: CLOCK,
            first,
            second,
        });
    }
    Ok(answer(object, updates_at(second)))
}
