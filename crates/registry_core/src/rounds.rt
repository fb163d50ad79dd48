//! One caller for each thread of a round, and back.
ghost use Rattle.std.specs.Prelude.{◌≡◌, ◌≤◌, IfOk, OnOk, All, sum};
ghost use Rattle.word_rule.specs.Callers.{IsIdle};
ghost use Rattle.registry_core.specs.Rounds.{after_joins, after_splits, all_split_off};
ghost use Rattle.registry_core.specs.Rounds.{IsWholeWhereAlone};

use crate::registry::Registry;
use reg_model::NoMemory;
use std::alloc::Global;
use word_rule::Caller;

impl Registry {
    /// Splits off one caller for each of these numbers of update calls, in order.
    pub fn split_each(
        &self,
        alloc: Global,
        me: &mut Caller,
        gives: &[u32],
    ) -> Result<Vec<Caller>, NoMemory>
        requires table { me.old.table ≡ self.now.table }
        requires gives { sum gives.now ≤ me.old.left }
        ensures callers { IfOk result (λ callers. callers.items ≡ all_split_off gives.now me.old) }
        ensures tables { IfOk result
            (λ callers. All (λ other. other.table ≡ self.now.table) callers.items) }
        ensures idle { IfOk result (λ callers. All (λ other. IsIdle other.log) callers.items) }
        ensures me { OnOk result (me.new ≡ after_splits gives.now me.old) }
        ensures whole { OnOk result (IsWholeWhereAlone me.old.log → IsWholeWhereAlone me.new.log) }
    {
        let mut callers = Vec::new(alloc);
        for give in gives {
            let caller = self.words().split(me, *give)?;
            callers.push(caller)?;
        }
        Ok(callers)
    }

    /// Joins callers into one, in order. Where there is no memory, those that weren't joined are
    /// dropped, and nobody is alone any more.
    pub fn join_each(&self, me: &mut Caller, callers: Vec<Caller>) -> Result<(), NoMemory>
        requires table { me.old.table ≡ self.now.table }
        requires callers { All (λ other. other.table ≡ self.now.table) callers.items }
        requires idle { All (λ other. IsIdle other.log) callers.items }
        ensures me { OnOk result (me.new ≡ after_joins callers.items me.old) }
        ensures whole { OnOk result (IsWholeWhereAlone me.old.log → IsWholeWhereAlone me.new.log) }
    {
        for caller in callers {
            let Ok(()) = self.words().join(me, caller) else {
                return Err(NoMemory);
            };
        }
        Ok(())
    }
}
