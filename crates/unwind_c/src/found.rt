//! What C is told of a lookup.

ghost use Rattle.std.specs.Prelude.{◌≡◌};
ghost use Rattle.unwind_c.specs.Finds.{fde_hit_told, found_fde_told, no_fde_told};

use c_handle::{FIND_AGAIN, LOADED, NOWHERE, REGISTERED};
use fde_reader::FdeFound;
use reg_model::{Again, Half, Span};

/// The FDE that covers an address: in which half it was found, at which stamp, the addresses of its
/// range, and its own address; or that there is none, each half at its stamp. What isn't told is 0.
#[repr(C)]
#[derive(Clone, Copy)]
pub struct UnwindFound {
    pub kind: u32,
    pub registered: u32,
    pub loaded: u32,
    pub first: u64,
    pub size: u64,
    pub fde: u64,
}

impl UnwindFound {
    fn hit(half: Half, stamp: u32, span: &Span, fde: u64) -> UnwindFound
        ensures { result ≡ fde_hit_told half stamp span.now fde }
    {
        let (first, last) = (span.first(), span.last());
        let answered = match half {
            Half::Registered => UnwindFound::none(REGISTERED, stamp, 0),
            Half::Loaded => UnwindFound::none(LOADED, 0, stamp),
        };
        UnwindFound {
            first,
            size: last - first + 1,
            fde,
            ..answered
        }
    }

    fn none(kind: u32, registered: u32, loaded: u32) -> UnwindFound
        ensures { result ≡ no_fde_told kind registered loaded }
    {
        UnwindFound {
            kind,
            registered,
            loaded,
            first: 0,
            size: 0,
            fde: 0,
        }
    }

    pub(crate) fn of(answer: Result<FdeFound, Again>) -> UnwindFound
        ensures { result ≡ found_fde_told answer }
    {
        match &answer {
            Ok(
                FdeFound::Hit {
                    half,
                    stamp,
                    span,
                    fde,
                },
            ) => UnwindFound::hit(*half, *stamp, span, *fde),
            Ok(FdeFound::Miss { registered, loaded }) => UnwindFound::none(
                NOWHERE,
                *registered,
                *loaded,
            ),
            Err(_) => UnwindFound::none(FIND_AGAIN, 0, 0),
        }
    }
}
