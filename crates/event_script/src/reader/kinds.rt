//! The kinds of lines, and which may come when.

ghost use Rattle.std.specs.Prelude.{◌≡◌};
ghost use Rattle.std.specs.List.{find};
ghost use Rattle.std.specs.Str.{bytes_eq};
ghost use Rattle.std.specs.Prelude.{drop};
ghost use Rattle.event_script.specs.Draft.{may_come};
ghost use Rattle.event_script.specs.Reading.{kind_of, kinds};
ghost use Rattle.script_text.specs.Statements.{word_of};
ghost use Rattle.event_script.specs.declared.reader.kinds.Stage.TheVariants as stage;

use script_text::Kind;
use script_text::limits::REPLACE_VERSION;

/// How far a script has come: which lines may come next.
#[derive(Clone, Copy)]
pub enum Stage {
    /// The first line.
    Version,
    Nodes,
    Loads,
    /// Images, and then what comes after them.
    Images,
    /// An image was fixed: others may be, and then comes what comes after them.
    Fixed,
    /// A snapshot was begun: its memory, other snapshots, and then rounds come.
    Snapshots,
    /// A round has begun, and no thread in it.
    Round,
    /// A thread has begun.
    Thread,
    /// After the `end` line.
    Ended,
}

/// The kind of line that the word begins.
#[tactic(auto, unfolding(crate::specs::Reading::kind_of))]
pub fn kind_of(word: &[u8]) -> Option<Kind>
    ensures { result ≡ kind_of word.now }
{
    if word == b"find".as_slice() {
        Some(Kind::Find)
    } else if word == b"register".as_slice() {
        Some(Kind::Register)
    } else if word == b"deregister".as_slice() {
        Some(Kind::Deregister)
    } else if word == b"replace".as_slice() {
        Some(Kind::Replace)
    } else if word == b"load".as_slice() {
        Some(Kind::Load)
    } else if word == b"unload".as_slice() {
        Some(Kind::Unload)
    } else if word == b"unwind".as_slice() {
        Some(Kind::Unwind)
    } else if word == b"memory".as_slice() {
        Some(Kind::Memory)
    } else {
        later_kind_of(word)
    }
}

/// The kind of line that the word begins, among those after the first eight.
fn later_kind_of(word: &[u8]) -> Option<Kind>
    ensures { result ≡ find (λ kind. bytes_eq word.now (word_of kind)) (drop 8 kinds) }
{
    if word == b"thread".as_slice() {
        Some(Kind::Thread)
    } else if word == b"round".as_slice() {
        Some(Kind::Round)
    } else if word == b"image".as_slice() {
        Some(Kind::Image)
    } else if word == b"fixed".as_slice() {
        Some(Kind::Fixed)
    } else if word == b"snapshot".as_slice() {
        Some(Kind::Snapshot)
    } else if word == b"frames".as_slice() {
        Some(Kind::Version)
    } else if word == b"nodes".as_slice() {
        Some(Kind::Nodes)
    } else if word == b"loads".as_slice() {
        Some(Kind::Loads)
    } else if word == b"end".as_slice() {
        Some(Kind::End)
    } else {
        None
    }
}

/// Whether a line of the kind may come in a script of the version.
pub fn may_come(version: u32, stage: Stage, kind: Kind) -> bool
    ensures { result ≡ may_come version stage kind }
{
    match stage {
        Stage::Version => matches!(kind, Kind::Version),
        Stage::Nodes => matches!(kind, Kind::Nodes),
        Stage::Loads => matches!(kind, Kind::Loads),
        Stage::Images => matches!(
            kind,
            Kind::Image | Kind::Fixed | Kind::Snapshot | Kind::Round | Kind::End
        ),
        Stage::Fixed => matches!(kind, Kind::Fixed | Kind::Snapshot | Kind::Round | Kind::End),
        Stage::Snapshots => matches!(
            kind,
            Kind::Snapshot | Kind::Memory | Kind::Round | Kind::End
        ),
        Stage::Round => matches!(kind, Kind::Round | Kind::Thread | Kind::End),
        Stage::Thread => may_come_in_thread(version, kind),
        Stage::Ended => false,
    }
}

/// Whether a line of the kind may come where a thread has begun.
fn may_come_in_thread(version: u32, kind: Kind) -> bool
    ensures { result ≡ may_come version stage.Thread kind }
{
    match kind {
        Kind::Replace => version >= REPLACE_VERSION,
        Kind::Round | Kind::Thread | Kind::End => true,
        Kind::Register | Kind::Deregister | Kind::Load | Kind::Unload => true,
        Kind::Find | Kind::Unwind => true,
        _ => false,
    }
}
