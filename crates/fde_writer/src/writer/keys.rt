//! Keys under which sections stand, for who moves all sections to another writer.

ghost use Rattle.std.specs.Prelude.{◌≡◌, ◌≢◌, ◌++◌, [], ℕ, Contains, drop, length, take};
ghost use Rattle.std.specs.Map.{keys_of};
ghost use Rattle.fde_writer.specs.Standing.{standing_under};

use super::FdeWriter;

impl FdeWriter {
    /// How many keys are listed: each under which sections stand. They are written, as far as there
    /// is room for them, in no order.
    pub fn keys(&self, room: &mut [u64]) -> usize
        ensures count { result ≡ length self.now.stands }
        ensures written { room.new ≡ take (length room.old) (keys_of self.now.stands)
            ++ drop (length self.now.stands) room.old }
        ensures listed { (key : ℕ) → standing_under key self.now.stands ≢ []
            → Contains (keys_of self.now.stands) key }
    {
        self.book.keys(room)
    }
}
