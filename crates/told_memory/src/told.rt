//! Memory of which a part is lent, and words are told one by one.

ghost use Rattle.std.specs.Prelude.{◌≡◌, map};
ghost use Rattle.told_memory.specs.Telling.{told_region, told_regions};
ghost use Rattle.frame_expr.specs.Regions.{word_at};

use frame_expr::{Lent, WordSource};

/// The eight bytes at an address as a number, the lowest first.
#[derive(Clone, Copy, Debug, PartialEq, Eq)]
#[repr(C)]
pub struct ToldWord {
    pub address: u64,
    pub word: u64,
}

impl ToldWord {
    fn number(&self) -> u64
        ensures { result ≡ self.now.word }
    {
        self.word
    }
}

/// Bytes that a caller lends, and words that it told of the memory beside them. Of two words for
/// one address the first counts, and what is lent counts before both.
#[derive(Clone, Copy)]
pub struct ToldMemory<'a> {
    pub lent: Lent<'a>,
    pub words: &'a [ToldWord],
}

impl<'a> WordSource for ToldMemory<'a> {
    ghost regions = { λ t. told_regions t.lent.address t.lent.bytes.now t.words.now };

    #[inline(always)]
    fn word(&self, address: u64) -> Option<u64> {
        match self.lent.word(address) {
            Some(number) => Some(number),
            None => told_word(self.words, address),
        }
    }
}

/// The first word that was told for an address.
fn told_word(words: &[ToldWord], address: u64) -> Option<u64>
    ensures { result ≡ word_at address (map told_region words.now) }
{
    for told in words {
        if told.address == address {
            return Some(told.number());
        }
    }
    None
}
