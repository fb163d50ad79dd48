//! How large a registry may be that a library makes.

ghost use Rattle.std.specs.Prelude.{◌≡◌, MatchResult};
ghost use Rattle.c_handle.specs.Limits.{MayHaveSize, IsTooFewOrMany, size_told};

const MIN_NODES: u32 = 4;

const MAX_NODES: u32 = 16384;

const MAX_LOADS: u32 = 1024;

/// Why there is no registry of a size: it can't have so many nodes, or so many members loaded.
#[derive(Clone, Copy, Debug, PartialEq, Eq)]
pub enum SizeFault {
    Nodes,
    Loads,
}

impl SizeFault {
    /// As C is told it.
    pub fn told(self) -> u64
        ensures { result ≡ size_told self }
    {
        match self {
            SizeFault::Nodes => 2,
            SizeFault::Loads => 3,
        }
    }
}

/// That a registry may have so many nodes, and so many members loaded.
pub fn check_size(nodes: u32, loads: u32) -> Result<(), SizeFault>
    ensures { MatchResult result (λ _. MayHaveSize nodes loads) (IsTooFewOrMany nodes loads) }
{
    if nodes < MIN_NODES || nodes > MAX_NODES {
        return Err(SizeFault::Nodes);
    }
    if loads < 1 || loads > MAX_LOADS {
        return Err(SizeFault::Loads);
    }
    Ok(())
}
