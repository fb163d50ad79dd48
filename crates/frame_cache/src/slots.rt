//! Members in eight slots.
ghost use Rattle.std.specs.Prelude.{◌≡◌, ℕ, ◌<◌, length, set, false};
ghost use Rattle.reg_model.specs.SpanData.{contains};
ghost use Rattle.frame_cache.specs.Recent.{in_slot};

use crate::blocks::{BLOCK, NUMBERS};
use crate::entry::CachedEntry;
use reg_model::Member;
use std::marker::Model;

/// A member in each slot. Beside them stand the numbers of the blocks in which they begin, and how
/// many blocks later they end, at most the greatest number: eight of these are compared by a few
/// instructions.
#[derive(Drop)]
pub(crate) struct Slots {
    blocks: [u16; 8],
    reaches: [u16; 8],
    members: [CachedEntry; 8],
}

impl Model for Slots {
    ghost use Rattle.std.specs.Prelude.{List};
    ghost use Rattle.reg_model.specs.declared.span.Member.{Member};
    ghost use Rattle.frame_cache.specs.Slots.{AreMarked};

    ghost Value = { List Member };

    ghost view = { λ s. s.members };

    ghost invariant = { λ s. AreMarked s.blocks s.reaches s.members };
}

impl Slots {
    /// Slots that were never used.
    pub(crate) fn new() -> Slots
        ensures { length result ≡ 8 }
    {
        Slots {
            blocks: [0; 8],
            reaches: [0; 8],
            members: [CachedEntry::unused(); 8],
        }
    }

    /// The member in a slot.
    pub(crate) fn get(&self, slot: u8) -> CachedEntry
        requires { slot < 8 }
        ensures { result ≡ in_slot self.now slot }
    {
        self.members[slot as usize]
    }

    /// Puts a member into a slot.
    pub(crate) fn put(&mut self, slot: u8, member: &Member)
        requires { slot < 8 }
        ensures { self.new ≡ set self.old slot member.now }
    {
        let entry = CachedEntry::of(member);
        self.blocks[slot as usize] = entry.block();
        self.reaches[slot as usize] = entry.blocks_reached();
        self.members[slot as usize] = entry;
    }

    /// Whether a slot may have a member that contains the address. No branch depends on what stands
    /// in a slot, and no load waits for another.
    #[inline(always)]
    pub(crate) fn may_hold(&self, pc: u64) -> bool
        ensures { result ≡ false → (i : ℕ) → i < 8
            → contains (in_slot self.now i).span pc ≡ false }
    {
        let block = (pc / BLOCK % NUMBERS) as u16;
        let mut near = false;
        for slot in 0..8 {
            near |= block.wrapping_sub(self.blocks[slot]) <= self.reaches[slot];
        }
        near
    }
}
