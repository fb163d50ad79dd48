//! The kinds of lines.

/// What a line says, by its first word.
#[derive(Clone, Copy, Debug, PartialEq, Eq)]
pub enum Kind {
    Version,
    Nodes,
    Loads,
    Image,
    Fixed,
    Snapshot,
    Memory,
    Round,
    Thread,
    Register,
    Deregister,
    Replace,
    Load,
    Unload,
    Find,
    Unwind,
    End,
}
