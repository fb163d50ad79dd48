//! Laws of calls and rounds. Each is the contract of a function that does nothing.
ghost use Rattle.std.specs.Prelude.{◌≡◌, ℕ, ◌≤◌, List, [], ◌++◌, length, All, Contains};
ghost use Rattle.std.specs.List.{AllZip};
ghost use mathlib.Core.List.{IsPrefix};
ghost use Rattle.reg_model.specs.Chain.{Chain, made_count};
ghost use Rattle.reg_model.specs.Numbers.{AreNumbered};
ghost use Rattle.reg_model.specs.declared.answer.Receipt.{Receipt};
ghost use Rattle.reg_model.specs.declared.answer.Update.{Update};
ghost use Rattle.word_rule.specs.CallerData.{CallerData};
ghost use Rattle.word_rule.specs.Callers.{IsIdle, IsRecord, IsWhole};
ghost use Rattle.word_rule.specs.declared.log.Log.{Log};
ghost use Rattle.word_rule.specs.declared.log.ReceiptList.{ReceiptList};
ghost use Rattle.word_rule.specs.declared.log.Terms.{Terms};
ghost use Rattle.registry_core.specs.Calls.{Answered, Receives};
ghost use Rattle.registry_core.specs.Rounds.{AreAnswered, IsAfterRound, IsBetweenRounds};
ghost use Rattle.registry_core.specs.Rounds.{IsSplitOff, IsWholeWhereAlone, after_joins};
ghost use Rattle.registry_core.specs.Rounds.{after_splits, all_receipts, all_split_off};

use reg_model::laws::receipts_stay;

/// Calls one after another are answered with their receipts one after another.
pub fn calls_follow()
    ensures none { (k : CallerData) → Answered [] k k }
    ensures more { (a b c : CallerData) (front back : List Receipt)
        → Answered front a b → Answered back b c → Answered (front ++ back) a c }
    ensures chain { (a b : CallerData) (receipts : List Receipt)
        → Chain Receives a receipts b → Answered receipts a b }
{}

/// The callers that are split off for a round are new ones.
pub fn split_callers_are_new()
    ensures { (k : CallerData) (gives : List ℕ)
        → AllZip (IsSplitOff k) gives (all_split_off gives k) }
{}

/// Callers whose calls were answered may be joined again: they are of the same table, and hold
/// nothing.
pub fn answered_callers_may_join()
    ensures { (k : CallerData) (gives : List ℕ) (lists : List (List Receipt))
        (after : List CallerData)
        → AreAnswered lists (all_split_off gives k) after
        → All (λ (other : CallerData). other.table ≡ k.table) after
        × All (λ (other : CallerData). IsIdle other.log) after }
{}

/// A round: a caller that stands between two splits off one for each thread, the threads' calls are
/// answered, and all are joined in order. Then it stands between two again.
pub fn rounds_follow()
    ensures { (k : CallerData) (gives : List ℕ) (lists : List (List Receipt))
        (after : List CallerData)
        → IsBetweenRounds k → AreAnswered lists (all_split_off gives k) after
        → IsWholeWhereAlone (after_joins after (after_splits gives k)).log
        → IsAfterRound lists k (after_joins after (after_splits gives k)) }
{}

/// What holds in a history goes on to hold while it grows and callers come.
pub fn records_stay()
    ensures { (t : Terms) (past later : List Update) (callers more : ℕ) (receipts : ReceiptList)
        → IsPrefix past later → callers ≤ more → IsRecord t past callers receipts
        → IsRecord t later more receipts }
{
    receipts_stay();
}

/// A whole log has one receipt for each number of the history, and no other one of an accepted
/// update.
pub fn whole_logs_are_numbered()
    ensures numbers { (v : Log) → IsWhole v
        → AreNumbered (length v.past) (all_receipts v.receipts) }
    ensures count { (v : Log) → IsWhole v
        → made_count (all_receipts v.receipts) ≡ length v.past }
{}

/// Of two whole logs one has all receipts of the other: then what the other has seen begins what it
/// has.
pub fn whole_logs_are_comparable()
    ensures { (v w : Log) → IsWhole v → IsWhole w
        → ((r : Receipt) → Contains (all_receipts v.receipts) r
        → Contains (all_receipts w.receipts) r)
        → IsPrefix v.past w.past }
{}
