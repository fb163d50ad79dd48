//! What a library is made with.

use c_handle::SizeFault;

/// How many nodes its tree has, how many ranges may stand in the loaded half at a time, and from
/// where distances from code to FDEs are counted.
#[repr(C)]
#[derive(Clone, Copy)]
pub struct UnwindLimits {
    pub nodes: u32,
    pub loads: u32,
    pub low: u64,
}

/// Why a library isn't made.
#[derive(Clone, Copy)]
pub enum NewFault {
    NoMemory,
    Size(SizeFault),
}
