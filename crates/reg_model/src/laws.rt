//! Laws of the definitions. Each is the contract of a function that does nothing.

ghost use Rattle.std.specs.Prelude.{◌≡◌, ℕ, ◌≤◌, ◌++◌, List, Some, Contains, IsTrue, length};
ghost use Rattle.std.specs.List.{AllByRecursion};
ghost use Rattle.reg_model.specs.SpanData.{contains};
ghost use Rattle.reg_model.specs.State.{State, AreDisjoint, IsLawful};
ghost use Rattle.reg_model.specs.History.{IsHistory, state_after};
ghost use Rattle.reg_model.specs.Query.{member_at};
ghost use Rattle.reg_model.specs.Receipt.{Holds, IsAtNumber, WasFilled, made};
ghost use Rattle.reg_model.specs.Numbers.{AreNumbered, history_of};
ghost use Rattle.reg_model.specs.PlainRegistryData.{PlainRegistryData, LeadsTo, Step};
ghost use Rattle.reg_model.specs.Chain.{Chain, PlainStep, HoldsAlways, Rises, all_made};
ghost use Rattle.reg_model.specs.declared.answer.Receipt.{Receipt};
ghost use Rattle.reg_model.specs.declared.answer.Update.{Update};
ghost use Rattle.reg_model.specs.declared.span.Member.{Member};

/// What the registry for one thread answers holds in its history, which grows by the update that
/// was accepted.
pub fn answers_hold()
    ensures { (start : State) (history : List Update) (old new : PlainRegistryData)
        (nodes callers since : ℕ) (r : Receipt)
        → LeadsTo start history old → Step old r new
        → WasFilled start (history ++ made r) nodes callers since r
        → LeadsTo start (history ++ made r) new
        × Holds start (history ++ made r) nodes callers since r }
{}

/// An answer that holds goes on to hold while the history grows and callers come.
pub fn receipts_stay()
    ensures { (start : State) (history more : List Update) (nodes callers later since : ℕ)
        (r : Receipt)
        → callers ≤ later → Holds start history nodes callers since r
        → Holds start (history ++ more) nodes later since r }
{}

/// Each state of a history is lawful if the first one is: no two members of one list overlap.
pub fn histories_are_lawful()
    ensures { (start : State) (history : List Update)
        → IsLawful start → IsHistory start history → IsLawful (state_after start history) }
{}

/// Of disjoint members, the one that contains an address is what a query finds, whatever their
/// order.
pub fn one_member_contains()
    ensures { (members : List Member) (m : Member) (pc : ℕ)
        → AreDisjoint members → Contains members m → IsTrue (contains m.span pc)
        → member_at pc members ≡ Some m }
{}

/// A history can be read off receipts in any order: each accepted update stands in it under its
/// number, and each number on one receipt.
pub fn numbers_tell_histories()
    ensures { (history : List Update) (receipts : List Receipt)
        → AllByRecursion (IsAtNumber history) receipts → AreNumbered (length history) receipts
        → history_of receipts (length history) ≡ history }
{}

/// Calls of the registry over plain lists, one after another: their receipts hold in the history
/// that they make, however many nodes and callers there are; stamps and numbers rise, and each
/// number is given once.
pub fn chains_hold()
    ensures hold { (start : State) (history : List Update) (old new : PlainRegistryData)
        (receipts : List Receipt)
        → LeadsTo start history old → Chain PlainStep old receipts new
        → LeadsTo start (history ++ all_made receipts) new
        × AllByRecursion (HoldsAlways start (history ++ all_made receipts)) receipts }
    ensures rise { (old new : PlainRegistryData) (receipts : List Receipt)
        → Chain PlainStep old receipts new → Rises old receipts new }
{}
