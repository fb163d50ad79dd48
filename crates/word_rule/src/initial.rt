//! The words as they are made.
ghost use Rattle.std.specs.Prelude.{◌≡◌, ◌+◌, ◌*◌, ◌/◌, ◌<◌, ◌≤◌, ◌∷◌, ◌++◌, replicate, IfOk};
ghost use Rattle.word_rule.specs.Places.{initial_node, initial_nodes};

use crate::places::{FREE, HIGH, KIND, LEAF, LINK, NODE_WORDS};
use reg_model::NoMemory;
use std::alloc::Global;

/// Of the members of a copy, so many stand in one segment.
const SEGMENT: u32 = 16;

fn initial_node(nodes: u32, n: u32) -> [u64; NODE_WORDS]
    requires { n < nodes }
    ensures { result ≡ initial_node nodes n }
{
    let kind = if n == 0 { LEAF } else { FREE };
    let link = if n == 0 || n + 1 == nodes {
        0
    } else {
        n as u64 + 1
    };
    let mut words = [0; NODE_WORDS];
    words[KIND as usize] = kind;
    words[HIGH as usize] = u64::MAX;
    words[LINK as usize] = link;
    words
}

/// All words at the start, for so many nodes and loads.
pub(crate) fn initial_words(alloc: Global, nodes: u32, loads: u32) -> Result<Vec<u64>, NoMemory>
    requires { (nodes ≤ 16384) × (loads ≤ 1024) }
    ensures { IfOk result
        (λ v. v.items ≡ (0 ∷ 1 ∷ 0 ∷ 0 ∷ initial_nodes nodes nodes)
        ++ replicate (2 * (2 + 50 * ((loads + 15) / 16))) 0) }
{
    let mut words = vec![in alloc; 0u64, 1, 0, 0]?;
    for n in 0..nodes {
        let node = initial_node(nodes, n);
        words.extend_from_slice(&node)?;
    }
    let segments = loads.div_ceil(SEGMENT);
    let copies = 2 * (2 + 50 * segments as usize);
    words.resize(words.len() + copies, 0)?;
    Ok(words)
}
