//! A registry with one writer, and its readers: one member in each half, by turns; and laws of
//! members.

ghost use Rattle.std.specs.Prelude.{◌≡◌, ◌<◌, IfSome};

use fde_members::laws;
use fde_reader::{FdeFound, FdeReader};
use reg_model::{Half, Inserted, Loading, Member, Removed, Span};
use sole_writer::Writer;
use std::test::Fail;

/// 2^64 - 2^31.
const NEAR: u64 = 0xffff_ffff_8000_0000;

// The code from 0x1000 to 0x101f, whose FDE is at 0x2018.
fn code() -> Option<Member>
    ensures { IfSome result (λ m. m.payload ≡ 0x8000_1018) }
{
    let span = Span::new(0x1000, 0x20)?;
    let payload = 0x8000_1018;
    Some(Member { span, payload })
}

// A call, and what it is to answer.
#[derive(Clone, Copy)]
enum Wanted {
    Registers(Inserted),
    Deregisters(Removed),
    Loads(Loading),
    Unloads(Removed),
}

// Whether a call is answered so, of a member or of the one at its first address.
fn answers(writer: &mut Writer, told: &Member, wanted: Wanted) -> bool
    requires { told.now.payload < writer.old.words.terms.payloads }
    ensures { writer.new.words ≡ writer.old.words }
{
    if writer.stuck() || writer.left() == 0 {
        return false;
    }
    let base = told.span.first();
    match wanted {
        Wanted::Registers(answer) => writer.register(*told) == Ok(answer),
        Wanted::Deregisters(answer) => writer.deregister(base) == Ok(answer),
        Wanted::Loads(answer) => writer.load(*told) == Ok(answer),
        Wanted::Unloads(answer) => writer.unload(base) == Ok(answer),
    }
}

// What a hit in a half at a stamp says of the code.
fn hit(half: Half, stamp: u32, code: &Member) -> Option<FdeFound> {
    let span = code.span;
    Some(FdeFound::Hit {
        half,
        stamp,
        span,
        fde: 0x2018,
    })
}

fn miss(registered: u32, loaded: u32) -> Option<FdeFound> {
    Some(FdeFound::Miss { registered, loaded })
}

// It comes into both halves, once each. The loader's has room for one.
fn comes(writer: &mut Writer, reader: &mut FdeReader, code: &Member) -> bool
    requires { code.now.payload < writer.old.words.terms.payloads }
    ensures { writer.new.words ≡ writer.old.words }
{
    let registered = answers(
        writer,
        code,
        Wanted::Registers(Inserted::Done { number: 1 }),
    );
    let overlap = Inserted::Overlap {
        member: *code,
        stamp: 1,
    };
    let twice = answers(writer, code, Wanted::Registers(overlap));
    let loaded = answers(writer, code, Wanted::Loads(Loading::Done { number: 2 }));
    let found = reader.find(0x101f).ok() == hit(Half::Registered, 2, code);
    registered && twice && loaded && found
}

// It goes from each half.
fn goes(writer: &mut Writer, reader: &mut FdeReader, code: &Member) -> bool
    requires { code.now.payload < writer.old.words.terms.payloads }
    ensures { writer.new.words ≡ writer.old.words }
{
    let done = |number: u32| -> Removed {
        Removed::Done {
            number,
            member: *code,
        }
    };
    let deregistered = answers(writer, code, Wanted::Deregisters(done(3)));
    let absent = answers(
        writer,
        code,
        Wanted::Deregisters(Removed::NotFound { stamp: 3 }),
    );
    let loaded = reader.find(0x1000).ok() == hit(Half::Loaded, 3, code);
    let unloaded = answers(writer, code, Wanted::Unloads(done(4)));
    let nowhere = reader.find(0x1000).ok() == miss(4, 4);
    deregistered && absent && loaded && unloaded && nowhere
}

#[test]
fn one_member_in_both_halves(rt: HostRuntime) -> Result<(), Fail> {
    let mut writer = Writer::new(rt.alloc(), 4, 1, u32::MAX)?;
    let mut reader = FdeReader::new(writer.share()?, NEAR);
    let Some(code) = code() else {
        return Err(Fail::from("no span"));
    };
    assert!(rt; comes(&mut writer, &mut reader, &code));
    assert!(rt; goes(&mut writer, &mut reader, &code));
    assert!(rt; writer.left() == 67_108_858 && !writer.stuck());
    Ok(())
}

#[test]
fn each_law(rt: HostRuntime) {
    laws::payloads_lead();
    laws::hits_are_fdes();
    laws::added_members_stay();
    laws::only_one_covers();
    laws::found_fdes_are_given();
    laws::misses_are_misses();
    let _ = &rt;
}
