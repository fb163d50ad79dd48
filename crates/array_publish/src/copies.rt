//! Where the words of the loader's copies stand, and what they say of a member.
//!
//! Nothing that is loaded is trusted: a copy may be stored into meanwhile. So what was found is
//! said of every copy that agrees with the words that were loaded.
ghost use Rattle.std.specs.Prelude.{◌≡◌, ◌+◌, ◌*◌, ◌<◌, ◌≤◌};
ghost use Rattle.word_rule.specs.Callers.{AreTerms};
ghost use Rattle.word_rule.specs.Places.{copy_place, copy_words, member_place, segment_place};
ghost use Rattle.array_publish.specs.CopyLoads.{IsTold, LoadsCopy, MayLoadFrom, load_count};
ghost use Rattle.array_publish.specs.Search.{IsMember, listed_member};

use reg_model::{Member, Span};
use segment_array::{segments_for, spot};
use word_rule::{FIRST_NODE, Looker, NODE_WORDS, Words};

/// The words of a segment, and those before the members of a copy or a segment.
pub const SEGMENT_WORDS: u32 = 50;

const HEADER_WORDS: u32 = 2;

/// The words of a member: its first and its last address, and its payload.
pub const MEMBER_WORDS: u32 = 3;

/// The members of a full segment.
pub const FULL: u32 = 16;

/// Where a copy says how many segments are in use.
pub const HEAD: u32 = 0;

/// Where a copy says how many members it lists.
pub const COUNT: u32 = 1;

/// Copy 0 or 1, and where it begins in the table.
#[derive(Clone, Copy)]
pub struct CopyStart {
    pub copy: u32,
    pub start: u32,
}

/// What the words of a copy say of a member.
#[derive(Clone, Copy)]
pub struct Listed {
    pub first: u64,
    pub last: u64,
    pub payload: u64,
}

/// Where copy 0 or 1 begins in the table.
pub fn place_of_copy(words: &Words, copy: u32) -> u32
    requires valid { AreTerms words.now.terms }
    requires one { copy < 2 }
    ensures { result ≡ copy_place words.now.terms copy }
{
    let size = HEADER_WORDS + SEGMENT_WORDS * segments_for(words.loads());
    FIRST_NODE as u32 + NODE_WORDS as u32 * words.nodes() + copy * size
}

/// Where a segment begins in a copy.
pub fn place_of_segment(segment: u32) -> u32
    requires { segment ≤ 64 }
    ensures { result ≡ segment_place segment }
{
    HEADER_WORDS + SEGMENT_WORDS * segment
}

/// Where a member stands in a copy: after the copy's header, and those of the segments up to its
/// own.
pub fn place_of_member(index: u32) -> u32
    requires { index ≤ 1024 }
    ensures { result ≡ member_place index }
{
    let headers = 2 + spot(index).segment;
    HEADER_WORDS * headers + MEMBER_WORDS * index
}

/// Loads a word of a copy, counted from the copy's first.
#[inline(always)]
pub fn load_word<L: Looker>(words: &Words, me: &mut L, at: CopyStart, word: u32) -> u64
    requires from { MayLoadFrom words.now at (L.known me.old) }
    requires inside { word < copy_words words.now.terms }
    ensures loads { LoadsCopy words.now.terms at.copy (L.known me.old) (L.known me.new) }
    ensures told { IsTold words.now.terms at.copy (L.known me.new) word result }
    ensures one { load_count (L.known me.new) ≡ load_count (L.known me.old) + 1 }
{
    me.load_copy(words, at.start + word)
}

impl Listed {
    /// What is said of a member.
    pub fn of(member: &Member) -> Listed
        ensures { listed_member result ≡ member.now }
    {
        Listed {
            first: member.span.first(),
            last: member.span.last(),
            payload: member.payload as u64,
        }
    }

    /// The member that is meant.
    pub fn member(self) -> Member
        requires { IsMember self }
        ensures { result ≡ listed_member self }
    {
        let Some(span) = Span::new(self.first, self.last - self.first + 1) else {
            unreachable!()
        };
        Member {
            span,
            payload: self.payload as u32,
        }
    }
}
