//! The search of a copy for the last member that begins at or below an address.
//!
//! Members ascend, so how many of some begin at or below the address tells which is the last that
//! does. The search counts three times: of segments 8, 16 and so on, of the seven segments after
//! the last of these that does, and of the fifteen members after that segment's first. No load
//! waits for another one of its count. All segments but the highest are full, so no word behind the
//! members is loaded and no comparison needs a test beside it.
ghost use Rattle.std.specs.Prelude.{◌≡◌, ℕ, ◌+◌, ◌*◌, ◌-◌, ◌%◌, ◌<◌, ◌≤◌, [], min};
ghost use Rattle.std.specs.Prelude.{if◌then◌else◌};
ghost use Rattle.word_rule.specs.Places.{copy_words, member_place};
ghost use Rattle.array_publish.specs.CopyLoads.{IsAtCopy, LoadsCopy, MayLoadFrom, load_count};
ghost use Rattle.array_publish.specs.Search.{CountsBegun, IsLastBegun, IsNarrowed, IsObjectAt};
ghost use Rattle.array_publish.specs.Search.{others};

use crate::copies::{
    COUNT, CopyStart, FULL, Listed, MEMBER_WORDS, SEGMENT_WORDS, load_word, place_of_copy,
};
use word_rule::{Looker, Words};

/// Where the first member of a copy begins.
const FIRST_MEMBER: u32 = 4;

/// The members of eight full segments, and the words of eight segments.
const EIGHT: u32 = 128;

const EIGHT_WORDS: u32 = 400;

/// The members after the first one of a full segment.
const OTHERS: u32 = 15;

/// Words of a copy at equal distances: the first one's place, how far each is from the one before,
/// and how many there are.
#[derive(Clone, Copy)]
pub struct Series {
    pub place: u32,
    pub apart: u32,
    pub length: u32,
}

/// The first member of a segment: where it stands, and how many members there are after it.
#[derive(Clone, Copy)]
pub struct SegmentStart {
    pub place: u32,
    pub after: u32,
}

/// The last member that begins at or below an address: where it stands, and where it begins.
#[derive(Clone, Copy)]
pub struct LastBegun {
    pub place: u32,
    pub first: u64,
}

/// All of a number where something holds, else 0. There is no branch, since the processor would
/// guess half of them wrong.
#[inline(always)]
fn where_holds(number: u32, holds: bool) -> u32
    ensures { result ≡ (if holds then number else 0) }
{
    number * u32::from(holds)
}

/// How many words of a series are at or below the address. Each is loaded.
#[inline(always)]
fn begun_in<L: Looker>(words: &Words, me: &mut L, at: CopyStart, pc: u64, series: Series) -> u32
    requires from { MayLoadFrom words.now at (L.known me.old) }
    requires inside { (i : ℕ) → i < series.length
        → series.place + series.apart * i < copy_words words.now.terms }
    ensures loads { LoadsCopy words.now.terms at.copy (L.known me.old) (L.known me.new) }
    ensures few { load_count (L.known me.new) ≤ load_count (L.known me.old) + series.length }
    ensures inside { result ≤ series.length }
    ensures begun { CountsBegun words.now.terms at.copy (L.known me.new) pc series series.length
        result }
{
    let mut begun = 0;
    for number in 0..series.length {
        let first = load_word(words, me, at, series.place + series.apart * number);
        begun += where_holds(1, first <= pc);
    }
    begun
}

/// The last segment whose first member begins at or below the address, or the first one. The last
/// member has this number.
#[inline(always)]
fn segment_for<L: Looker>(
    words: &Words,
    me: &mut L,
    at: CopyStart,
    pc: u64,
    last: u32,
) -> SegmentStart
    requires from { MayLoadFrom words.now at (L.known me.old) }
    requires last { last < words.now.terms.loads }
    ensures loads { LoadsCopy words.now.terms at.copy (L.known me.old) (L.known me.new) }
    ensures few { load_count (L.known me.new) ≤ load_count (L.known me.old) + 14 }
    ensures after { result.after ≤ last }
    ensures whole { (last - result.after) % 16 ≡ 0 }
    ensures place { result.place ≡ member_place (last - result.after) }
    ensures between { IsNarrowed words.now.terms at.copy (L.known me.new) pc (last + 1)
        (last - result.after) (last - result.after + 16) }
{
    let eights = Series {
        place: FIRST_MEMBER + EIGHT_WORDS,
        apart: EIGHT_WORDS,
        length: last / EIGHT,
    };
    let begun = begun_in(words, me, at, pc, eights);
    let place = FIRST_MEMBER + EIGHT_WORDS * begun;
    let after = last - EIGHT * begun;
    let length = (after / FULL).min(7);
    let seven = Series {
        place: place + SEGMENT_WORDS,
        apart: SEGMENT_WORDS,
        length,
    };
    let more = begun_in(words, me, at, pc, seven);
    SegmentStart {
        place: place + SEGMENT_WORDS * more,
        after: after - FULL * more,
    }
}

/// How many of the other members of a segment begin at or below the address.
#[inline(always)]
fn begun_within<L: Looker>(
    words: &Words,
    me: &mut L,
    at: CopyStart,
    pc: u64,
    segment: SegmentStart,
) -> u32
    requires from { MayLoadFrom words.now at (L.known me.old) }
    requires place { segment.place < copy_words words.now.terms }
    requires inside { (i : ℕ) → i < min segment.after 15
        → segment.place + 3 + 3 * i < copy_words words.now.terms }
    ensures loads { LoadsCopy words.now.terms at.copy (L.known me.old) (L.known me.new) }
    ensures few { load_count (L.known me.new) ≤ load_count (L.known me.old) + 15 }
    ensures inside { result ≤ min segment.after 15 }
    ensures begun { CountsBegun words.now.terms at.copy (L.known me.new) pc
        (others segment) (min segment.after 15) result }
{
    let place = segment.place + MEMBER_WORDS;
    let apart = MEMBER_WORDS;
    if segment.after < OTHERS {
        let few = Series {
            place,
            apart,
            length: segment.after,
        };
        return begun_in(words, me, at, pc, few);
    }
    let all = Series {
        place,
        apart,
        length: OTHERS,
    };
    begun_in(words, me, at, pc, all)
}

/// Of so many members, the last one that begins at or below the address.
pub fn last_begun<L: Looker>(
    words: &Words,
    me: &mut L,
    at: CopyStart,
    pc: u64,
    count: u32,
) -> Option<LastBegun>
    requires from { MayLoadFrom words.now at (L.known me.old) }
    requires count { count ≤ words.now.terms.loads }
    ensures loads { LoadsCopy words.now.terms at.copy (L.known me.old) (L.known me.new) }
    ensures last { IsLastBegun words.now.terms at.copy (L.known me.new) pc count result }
    ensures few { load_count (L.known me.new) ≤ load_count (L.known me.old) + 30 }
{
    if count == 0 {
        return None;
    }
    let segment = segment_for(words, me, at, pc, count - 1);
    let more = begun_within(words, me, at, pc, segment);
    let place = segment.place + MEMBER_WORDS * more;
    let first = load_word(words, me, at, place);
    if first > pc {
        return None;
    }
    Some(LastBegun { place, first })
}

/// The member of a copy that contains the address.
pub fn listed_at<L: Looker>(words: &Words, me: &mut L, copy: u32, pc: u64) -> Option<Listed>
    requires copy { IsAtCopy words.now copy (L.known me.old) }
    ensures loads { LoadsCopy words.now.terms copy (L.known me.old) (L.known me.new) }
    ensures found { IsObjectAt words.now.terms copy (L.known me.new) [] pc result }
    ensures few { load_count (L.known me.new) ≤ load_count (L.known me.old) + 33 }
{
    let start = place_of_copy(words, copy);
    let at = CopyStart { copy, start };
    let loads = words.loads();
    let count = load_word(words, me, at, COUNT).min(loads as u64) as u32;
    let Some(LastBegun { place, first }) = last_begun(words, me, at, pc, count) else {
        return None;
    };
    let last = load_word(words, me, at, place + 1);
    if pc > last {
        return None;
    }
    let payload = load_word(words, me, at, place + 2);
    Some(Listed {
        first,
        last,
        payload,
    })
}
