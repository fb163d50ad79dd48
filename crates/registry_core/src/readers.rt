//! Readers: they look up, and owe nothing.
ghost use Rattle.std.specs.Prelude.{◌≡◌, List};
ghost use Rattle.reg_model.specs.declared.answer.Update.{Update};
ghost use Rattle.word_rule.specs.Logs.{reader_log};
ghost use Rattle.registry_core.specs.Rounds.{SplitsReader};

use crate::registry::Registry;
use word_rule::{Caller, Reader};

impl Registry {
    /// A reader that has seen what a caller has. The caller stays as it was, alone if it was alone.
    pub fn reader_of(&self, me: &mut Caller) -> Reader
        requires { me.old.table ≡ self.now.table }
        ensures splits { SplitsReader me.old me.new result }
    {
        self.words().reader_of(me)
    }

    /// Another reader, which has seen what one has.
    pub fn another_reader(&self, me: &mut Reader) -> Reader
        requires { me.old.table ≡ self.now.table }
        ensures splits { SplitsReader me.old me.new result }
    {
        self.words().another_reader(me)
    }

    /// A reader that has seen each update that was accepted by now. It asks for no caller and no
    /// memory.
    pub fn reader(&self) -> Reader
        ensures table { result.table ≡ self.now.table }
        ensures log { (past : List Update) × (result.log ≡ reader_log self.now.terms past) }
    {
        self.words().reader()
    }
}
