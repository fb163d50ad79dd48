//! What has the words of a memory.

ghost use Rattle.std.specs.Prelude.{◌≡◌, List};
ghost use Rattle.frame_expr.specs.Regions.{RegionData, word_at};

/// Memory of which a word is asked for by its address.
pub trait WordSource {
    /// The regions that it has.
    ghost regions: { Self → List RegionData };

    /// The eight bytes at an address as a number, the lowest first. `None` exactly where no single
    /// region holds all eight.
    fn word(&self, address: u64) -> Option<u64>
        ensures { result ≡ word_at address (regions self.now) };
}
