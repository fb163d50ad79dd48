//! The laws on the exchange of settled contents.

ghost use Rattle.std.specs.Prelude.{Option};
ghost use Rattle.std.specs.Bool.{Decides};
ghost use Rattle.reg_model.specs.declared.answer.Update.{Update};
ghost use Rattle.tree_laws.specs.Numbers.{is_among};
ghost use Rattle.word_rule.specs.declared.log.Log.{Log};
ghost use Rattle.word_rule.specs.Exchange.{ChangeLaws, IsLawfulExchange};
ghost use Rattle.word_rule.specs.Exchange.{group_of, is_lawful, top_of};

use tree_laws::laws;

/// Whether what a caller changed may settle is a test over the nodes that it holds: it is true
/// exactly where the exchange of these nodes, under the highest of them, is lawful.
pub fn exchange_decided()
    ensures { (v : Log) (update : Option Update) → Decides (is_lawful v update)
        (IsLawfulExchange v update (top_of v update) (is_among (group_of v update))) }
{
    laws::decided();
}

/// What an exchange rests on: the laws of local changes of trees.
pub(crate) fn exchange_laws()
    ensures { ChangeLaws }
{
    laws::transfer();
    laws::widen();
    laws::local_change();
}
