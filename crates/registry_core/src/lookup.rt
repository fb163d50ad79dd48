//! A lookup of each half, which ends with an answer.
ghost use Rattle.std.specs.Prelude.{◌≡◌, ◌∷◌, []};
ghost use Rattle.reg_model.specs.declared.answer.Half.TheVariants as half;
ghost use Rattle.reg_model.specs.declared.answer.Receipt.TheVariants as receipt;
ghost use Rattle.registry_core.specs.Queries.{Queries, IsKnown};

use array_publish::try_object;
use btree_lookup::try_find;
use crossbeam_utils::Backoff;
use node_store::Pausing;
use reg_model::Found;
use std::sync::Wait;
use word_rule::{Looker, Words};

/// The registered half: it is tried until a try is answered, with a pause after each that isn't.
pub(crate) fn registered_at<R: Wait, P: Pausing, L: Looker>(
    rt: &R,
    pausing: &P,
    words: &Words,
    me: &mut L,
    pc: u64,
) -> Found
    requires table { (L.known me.old).table ≡ words.now.table }
    ensures queries { Queries words.now.terms (receipt.Query half.Registered pc result ∷ [])
        (L.known me.old) (L.known me.new) }
    ensures known { IsKnown words.now.terms result }
    ensures terms { (L.known me.old).log.terms ≡ words.now.terms }
{
    let backoff = Backoff::new();
    for _ in rt.forever() {
        if let Ok(found) = try_find(words, me, pc) {
            return found;
        }
        pausing.pause(&backoff);
    }
    unreachable!()
}

/// The loader's half: it is tried until a try is answered, with a pause after each that isn't.
pub(crate) fn loaded_at<R: Wait, P: Pausing, L: Looker>(
    rt: &R,
    pausing: &P,
    words: &Words,
    me: &mut L,
    pc: u64,
) -> Found
    requires table { (L.known me.old).table ≡ words.now.table }
    ensures queries { Queries words.now.terms (receipt.Query half.Loaded pc result ∷ [])
        (L.known me.old) (L.known me.new) }
    ensures known { IsKnown words.now.terms result }
{
    let backoff = Backoff::new();
    for _ in rt.forever() {
        match try_object(words, me, pc) {
            Ok(found) => return found,
            Err(_) => pausing.pause(&backoff),
        }
    }
    unreachable!()
}
