//! A reader, and its lookups.

ghost use Rattle.std.specs.Prelude.{◌≡◌, Err, IfOk, IfErr, List, length};
ghost use Rattle.std.specs.Arc.{arc_value};
ghost use Rattle.reg_model.specs.declared.answer.Update.{Update};
ghost use Rattle.word_rule.specs.Logs.{reader_log, reader_of};
ghost use Rattle.fde_reader.specs.Readers.{AnswersHalf, AsksHalf, FindsAgain, FindsFde, hit_told};

use fde_members::fde_address;
use reg_model::{Again, Found, Half, Member, NoMemory, Span};
use registry_core::Registry;
use std::alloc::Global;
use std::marker::Model;
use std::sync::Arc;
use word_rule::Reader;

/// What was found at an address: a member of one half, at a stamp, with its addresses and the
/// address of its FDE; or none, each half at its own stamp.
#[derive(Clone, Copy, Debug, PartialEq, Eq)]
pub enum FdeFound {
    Hit {
        half: Half,
        stamp: u32,
        span: Span,
        fde: u64,
    },
    Miss {
        registered: u32,
        loaded: u32,
    },
}

impl FdeFound {
    fn hit(low: u64, half: Half, member: &Member, stamp: u32) -> FdeFound
        ensures { result ≡ hit_told low half member.now stamp }
    {
        FdeFound::Hit {
            half,
            stamp,
            span: member.span,
            fde: fde_address(low, member),
        }
    }
}

/// One that looks FDEs up.
#[derive(Drop)]
pub struct FdeReader {
    registry: Arc<Registry, Global>,
    me: Reader,
    low: u64,
}

impl Model for FdeReader {
    ghost use Rattle.std.specs.Prelude.{◌≡◌};
    ghost use Rattle.std.specs.Arc.{arc_value};
    ghost use Rattle.fde_reader.specs.Readers.{FdeReaderData};

    ghost Value = { FdeReaderData };

    ghost view = { λ r. record { words = arc_value r.registry; me = r.me; low = r.low } };

    ghost invariant = { λ r. r.me.table ≡ (arc_value r.registry).table };
}

impl FdeReader {
    /// A reader of a registry in which distances are counted from `low`. It has seen what was
    /// accepted by now.
    pub fn new(registry: Arc<Registry, Global>, low: u64) -> FdeReader
        ensures words { result.words ≡ arc_value registry }
        ensures low { result.low ≡ low }
        ensures log { (past : List Update)
            × (result.me.log ≡ reader_log (arc_value registry).terms past) }
    {
        let me = registry.reader();
        FdeReader { registry, me, low }
    }

    /// A reader of a registry, by what it has seen.
    pub fn of(registry: Arc<Registry, Global>, me: Reader, low: u64) -> FdeReader
        requires { me.table ≡ (arc_value registry).table }
        ensures { result ≡ record { words = arc_value registry; me = me; low = low } }
    {
        FdeReader { registry, me, low }
    }

    /// How many updates it has seen.
    pub fn seen(&self) -> u32
        ensures { result ≡ length self.now.me.log.past }
    {
        self.me.seen()
    }

    /// Another reader, which has seen what one has.
    pub fn another(&mut self) -> Result<FdeReader, NoMemory>
        ensures reader { IfOk result (λ other. other ≡ record {
          words = self.old.words;
          me = record { table = self.old.me.table; left = 0; log = reader_of self.old.me.log };
          low = self.old.low;
        }) }
        ensures same { self.new ≡ self.old }
    {
        let Ok(registry) = Arc::try_clone(&self.registry) else {
            return Err(NoMemory);
        };
        let me = self.registry.another_reader(&mut self.me);
        let low = self.low;
        Ok(FdeReader { registry, me, low })
    }

    /// Looks an address up once. Again where a half was changed or locked on the way.
    pub fn find(&mut self, pc: u64) -> Result<FdeFound, Again>
        ensures found { IfOk result
            (FindsFde self.old.words.terms self.old.low pc self.old.me self.new.me) }
        ensures again { IfErr result (FindsAgain self.old.words.terms pc self.old.me self.new.me) }
        ensures same { self.new ≡ record self.old { me = self.new.me } }
    {
        let registered = match ask(&self.registry, &mut self.me, Half::Registered, pc) {
            Ok(found) => found,
            Err(again) => return Err(again),
        };
        let at = match registered {
            Found::Hit { member, stamp } => {
                return Ok(FdeFound::hit(self.low, Half::Registered, &member, stamp));
            }
            Found::Miss { stamp } => stamp,
        };
        let loaded = match ask(&self.registry, &mut self.me, Half::Loaded, pc) {
            Ok(found) => found,
            Err(again) => return Err(again),
        };
        match loaded {
            Found::Hit { member, stamp } => {
                Ok(FdeFound::hit(self.low, Half::Loaded, &member, stamp))
            }
            Found::Miss { stamp } => Ok(FdeFound::Miss {
                registered: at,
                loaded: stamp,
            }),
        }
    }
}

/// Asks one half once.
fn try_half(registry: &Registry, me: &mut Reader, half: Half, pc: u64) -> Result<Found, Again>
    requires { me.old.table ≡ registry.now.table }
    ensures { AsksHalf half registry.now.terms pc me.old me.new result }
{
    match half {
        Half::Registered => registry.try_registered(me, pc),
        Half::Loaded => registry.try_loaded(me, pc),
    }
}

/// Asks one half once, and tells what it answered as the state is then.
fn ask(registry: &Registry, me: &mut Reader, half: Half, pc: u64) -> Result<Found, Again>
    requires { me.old.table ≡ registry.now.table }
    ensures found { IfOk result
        (λ found. AnswersHalf registry.now.terms half pc found me.old me.new) }
    ensures again { IfErr result
        (λ again. AsksHalf half registry.now.terms pc me.old me.new (Err again)) }
    ensures rest { me.new ≡ record me.old { log = me.new.log } }
{
    try_half(registry, me, half, pc)
}
