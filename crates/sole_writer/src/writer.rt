//! The writer of a registry, and its updates.

ghost use Rattle.std.specs.Prelude.{◌≡◌, ◌<◌, ◌≤◌, ◌+◌, ◌-◌, ◌↔◌, IfOk, IfErr, IsTrue, All, true};
ghost use Rattle.std.specs.Prelude.{false, []};
ghost use Rattle.std.specs.Arc.{arc_value};
ghost use Rattle.tree_descent.specs.Insertion.{IfFull};
ghost use Rattle.tree_descent.specs.Loads.{FoundNoRoom};
ghost use Rattle.reg_model.specs.State.{IsLawful};
ghost use Rattle.reg_model.specs.SpanData.{IsSpan};
ghost use Rattle.reg_model.specs.declared.answer.Receipt.TheVariants as receipt;
ghost use Rattle.word_rule.specs.CallerData.{due, surplus};
ghost use Rattle.word_rule.specs.Logs.{reader_of};
ghost use Rattle.word_rule.specs.Places.{ALLOWANCE, CALL_CREDIT};
ghost use Rattle.sole_writer.specs.Writers.{WriterAnswers, WriterStops, begun_call, plain_registry};

use node_store::{Busy, Once};
use reg_model::{Inserted, Loading, Member, NoMemory, Removed};
use registry_core::Registry;
use std::alloc::Global;
use std::marker::Model;
use std::sync::Arc;
use word_rule::{Caller, Reader};

/// A registry and the only caller that updates it.
#[derive(Drop)]
pub struct Writer {
    registry: Arc<Registry, Global>,
    me: Caller,
    /// Whether a lock was found taken: it makes no more updates then.
    stuck: bool,
}

impl Model for Writer {
    ghost use Rattle.std.specs.Arc.{arc_value};
    ghost use Rattle.sole_writer.specs.Writers.{IsWriter, WriterData};

    ghost Value = { WriterData };

    ghost view = { λ w. record { words = arc_value w.registry; me = w.me; stuck = w.stuck } };

    ghost invariant = { λ w. IsWriter record {
      words = arc_value w.registry;
      me = w.me;
      stuck = w.stuck;
    } };
}

// Begins an update call, of which one is left.
fn begin(me: &mut Caller)
    requires { 0 < me.old.left }
    ensures after { me.new ≡ record me.old { left = me.old.left - 1 } }
    ensures may { (0 < due me.new) × (CALL_CREDIT ≤ surplus me.new) }
{
    if !me.use_one() {
        unreachable!()
    }
}

impl Writer {
    /// A new registry, and its writer, which has all update calls. Payloads are below a number.
    pub fn new(alloc: Global, nodes: u32, loads: u32, payloads: u32) -> Result<Writer, NoMemory>
        requires nodes { (4 ≤ nodes) × (nodes ≤ 16384) }
        requires loads { (1 ≤ loads) × (loads ≤ 1024) }
        ensures terms { IfOk result (λ w. w.words.terms
            ≡ record { nodes = nodes; loads = loads; payloads = payloads; fixed = [] }) }
        ensures none { IfOk result (λ w. (plain_registry w).updates ≡ 0) }
        ensures left { IfOk result (λ w. w.me.left ≡ ALLOWANCE) }
        ensures free { IfOk result (λ w. w.stuck ≡ false) }
    {
        let (registry, me) = Registry::new(alloc, nodes, loads, payloads, Vec::new(alloc))?;
        match Arc::new(alloc, registry) {
            Ok(registry) => Ok(Writer {
                registry,
                me,
                stuck: false,
            }),
            Err(_) => Err(NoMemory),
        }
    }

    /// No two members of one half share an address, and each has a span.
    pub fn known(&self)
        ensures lawful { IsLawful (plain_registry self.now).state }
        ensures registered { All (λ m. IsSpan m.span) (plain_registry self.now).state.registered }
        ensures loaded { All (λ m. IsSpan m.span) (plain_registry self.now).state.loaded }
    {
        let _ = &self.me;
    }

    /// The registry, of which readers are made.
    pub fn registry(&self) -> &Registry
        ensures { result.now ≡ self.now.words }
    {
        &self.registry
    }

    /// A share of the registry, for readers that may outlive the writer.
    pub fn share(&self) -> Result<Arc<Registry, Global>, NoMemory>
        ensures { IfOk result (λ registry. arc_value registry ≡ self.now.words) }
    {
        match Arc::try_clone(&self.registry) {
            Ok(registry) => Ok(registry),
            Err(_) => Err(NoMemory),
        }
    }

    /// A reader that has seen what the writer has.
    pub fn reader(&mut self) -> Reader
        ensures reader { result ≡ record {
          table = self.old.words.table;
          left = 0;
          log = reader_of self.old.me.log;
        } }
        ensures same { self.new ≡ self.old }
    {
        self.registry.reader_of(&mut self.me)
    }

    /// Whether a lock was found taken.
    pub fn stuck(&self) -> bool
        ensures { result ≡ self.now.stuck }
    {
        self.stuck
    }

    /// How many update calls it may still begin.
    pub fn left(&self) -> u32
        ensures { result ≡ self.now.me.left }
    {
        self.me.left()
    }

    /// Registers a member, as plain lists do where there is room. Busy where a lock was found
    /// taken, and then the writer is stopped.
    pub fn register(&mut self, member: Member) -> Result<Inserted, Busy>
        requires free { self.old.stuck ≡ false }
        requires left { 0 < self.old.me.left }
        requires payload { member.payload < self.old.words.terms.payloads }
        ensures answers { IfOk result
            (λ answer. WriterAnswers (receipt.Register member answer) self.old self.new) }
        ensures full { IfOk result (λ answer. IfFull answer
            (FoundNoRoom member.span.first (begun_call self.old) self.new.me)) }
        ensures stops { IfErr result (λ why. WriterStops why self.old self.new) }
    {
        let _first = member.span.first();
        begin(&mut self.me);
        let answer = self.registry.register_by(&Once, &mut self.me, member);
        self.registry.words().confirm(&mut self.me);
        self.stuck = answer.is_err();
        answer
    }

    /// Removes the registered member that begins at an address, and names it. Busy where a lock
    /// was found taken, and then the writer is stopped.
    pub fn deregister(&mut self, base: u64) -> Result<Removed, Busy>
        requires free { self.old.stuck ≡ false }
        requires left { 0 < self.old.me.left }
        ensures answers { IfOk result
            (λ answer. WriterAnswers (receipt.Deregister base answer) self.old self.new) }
        ensures stops { IfErr result (λ why. WriterStops why self.old self.new) }
    {
        begin(&mut self.me);
        let answer = self.registry.deregister_by(&Once, &mut self.me, base);
        self.registry.words().confirm(&mut self.me);
        self.stuck = answer.is_err();
        answer
    }

    /// Loads a member into the other half. Busy where its lock was found taken, and then the writer
    /// is stopped.
    pub fn load(&mut self, member: Member) -> Result<Loading, Busy>
        requires free { self.old.stuck ≡ false }
        requires left { 0 < self.old.me.left }
        requires payload { member.payload < self.old.words.terms.payloads }
        ensures answers { IfOk result
            (λ answer. WriterAnswers (receipt.Load member answer) self.old self.new) }
        ensures stops { IfErr result (λ why. WriterStops why self.old self.new) }
    {
        let _first = member.span.first();
        begin(&mut self.me);
        let answer = self.registry.load_by(&Once, &mut self.me, member);
        self.registry.words().confirm(&mut self.me);
        self.stuck = answer.is_err();
        answer
    }

    /// Unloads the loaded member that begins at an address, and names it. Busy where the lock was
    /// found taken, and then the writer is stopped.
    pub fn unload(&mut self, base: u64) -> Result<Removed, Busy>
        requires free { self.old.stuck ≡ false }
        requires left { 0 < self.old.me.left }
        ensures answers { IfOk result
            (λ answer. WriterAnswers (receipt.Unload base answer) self.old self.new) }
        ensures stops { IfErr result (λ why. WriterStops why self.old self.new) }
    {
        begin(&mut self.me);
        let answer = self.registry.unload_by(&Once, &mut self.me, base);
        self.registry.words().confirm(&mut self.me);
        self.stuck = answer.is_err();
        answer
    }
}
