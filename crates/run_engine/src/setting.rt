//! What the events of a script are about.

use event_script::Snapshot;
use frame_parse::Section;
use reg_model::Span;

/// The images and the recorded stacks of a script, to which its events refer.
#[derive(Clone, Copy)]
pub struct RunSetting<'a> {
    /// The version of the script, which says what events there are.
    pub version: u32,
    /// The span of each image, by its number.
    pub images: &'a [Span],
    /// The section of each image, by its number.
    pub sections: &'a [Section],
    pub snapshots: &'a [Snapshot],
}
