//! The order of eight slots, as their numbers.
ghost use Rattle.std.specs.Prelude.{◌≡◌, ◌<◌, get_or};
ghost use Rattle.frame_cache.specs.Order.{AreSlots, brought};

use std::marker::Model;

/// All slots in an order.
#[derive(Drop)]
pub(crate) struct Order {
    slots: [u8; 8],
}

impl Model for Order {
    ghost use Rattle.std.specs.Prelude.{List, ℕ};
    ghost use Rattle.frame_cache.specs.Order.{AreSlots};

    ghost Value = { List ℕ };

    ghost view = { λ o. o.slots };

    ghost invariant = { λ o. AreSlots o.slots };
}

impl Order {
    /// The slots by their numbers.
    pub(crate) fn new() -> Order
        ensures { AreSlots result }
    {
        Order {
            slots: [0, 1, 2, 3, 4, 5, 6, 7],
        }
    }

    /// The slot at a place.
    pub(crate) fn at(&self, place: u32) -> u8
        requires { place < 8 }
        ensures slot { result ≡ get_or self.now place 0 }
        ensures low { result < 8 }
    {
        self.slots[place as usize]
    }

    /// Brings the slot at a place to the front.
    pub(crate) fn bring(&mut self, place: u32)
        requires { place < 8 }
        ensures brought { self.new ≡ brought place self.old }
        ensures slots { AreSlots self.new }
    {
        let slot = self.slots[place as usize];
        self.slots.copy_within(..place as usize, 1);
        self.slots[0] = slot;
    }

    /// Brings the slot at the last place to the front, and answers it.
    pub(crate) fn bring_last(&mut self) -> u8
        ensures slot { result ≡ get_or self.old 7 0 }
        ensures low { result < 8 }
        ensures brought { self.new ≡ brought 7 self.old }
        ensures slots { AreSlots self.new }
    {
        let [a, b, c, d, e, f, g, last] = self.slots;
        self.slots = [last, a, b, c, d, e, f, g];
        last
    }
}
