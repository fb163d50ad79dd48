//! How the words are made and taken apart.
ghost use Rattle.std.specs.Prelude.{◌≡◌, ◌+◌, ◌<◌, ◌≤◌, [], length, None, IfOk};
ghost use Rattle.std.specs.List.{AllByRecursion};
ghost use Rattle.reg_model.specs.SpanData.{IsSpan};
ghost use Rattle.segment_array.specs.Ascending.{AscendFrom};
ghost use Rattle.word_rule.specs.Logs.{first_log};
ghost use Rattle.word_rule.specs.Places.{ALLOWANCE};
ghost use Rattle.word_rule.specs.Callers.{IsAlone, IsWhole};

use crate::caller::Caller;
use crate::initial::initial_words;
use crate::places::updates_at;
use crate::rule::Made;
use crate::share::Share;
use crate::words::Words;
use atomic_table::Table;
use reg_model::{Member, NoMemory};
use std::alloc::Global;
use std::snapshot::Snapshot;

/// The update calls of one registry.
const ALLOWANCE: u32 = 1 << 26;

/// The releases of its first caller beside those of its update calls.
const SPARE: u64 = 1 << 60;

impl Words {
    /// The words of an empty registry, and its first caller, which has the whole allowance.
    pub fn new(
        alloc: Global,
        nodes: u32,
        loads: u32,
        payloads: u32,
        fixed: Vec<Member>,
    ) -> Result<(Words, Caller), NoMemory>
        requires nodes { (4 ≤ nodes) × (nodes ≤ 16384) }
        requires loads { (1 ≤ loads) × (loads ≤ 1024) }
        requires ascending { AscendFrom 0 fixed.items }
        requires members { AllByRecursion (λ m. IsSpan m.span × (m.payload < payloads))
            fixed.items }
        ensures terms { IfOk result
            (λ made. made.0.terms
            ≡ record { nodes = nodes; loads = loads; payloads = payloads; fixed = fixed.items }) }
        ensures caller { IfOk result
            (λ made. made.1
            ≡ record { table = made.0.table; left = ALLOWANCE; log = first_log made.0.terms }) }
    {
        let words = initial_words(alloc, nodes, loads)?;
        let made = Made {
            nodes,
            loads,
            payloads,
            fixed,
        };
        let key = Snapshot::of(&made);
        let (table, seat) = Table::of_words(alloc, words.as_slice(), &key)?;
        let me = Caller {
            seat,
            left: ALLOWANCE,
            spare: SPARE,
            seen: 0,
            share: Share::whole(),
        };
        Ok((Words { table, made }, me))
    }

    /// Takes the words apart, by one that is alone, and answers how many updates were
    /// accepted.
    pub fn close(self, me: Caller) -> u32
        requires table { me.table ≡ self.table }
        requires alone { IsAlone me.log.lineage }
        requires idle { (me.log.loader ≡ None) × (me.log.holdings.held ≡ [])
            × (me.log.holdings.out ≡ []) }
        ensures number { result ≡ length me.log.past }
        ensures whole { IsWhole me.log }
    {
        let Words { table, made: _ } = self;
        let Caller {
            seat,
            left: _,
            spare: _,
            seen: _,
            share: _,
        } = me;
        let closed = table.close_with(seat);
        let clock = closed.word(0);
        closed.free();
        updates_at(clock)
    }
}
