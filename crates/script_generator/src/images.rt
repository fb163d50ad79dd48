//! The images of a generated script, and their sections.

ghost use Rattle.std.specs.Prelude.{◌≡◌, ◌+◌, ◌<◌, ◌++◌, IfOk, map, All};
ghost use Rattle.script_text.specs.ScriptData.{IsSectionOf};
ghost use Rattle.script_generator.specs.SectionBytes.{generated_section_bytes};
ghost use Rattle.script_generator.specs.Generator.{generated_base, generated_span};
ghost use Rattle.script_generator.specs.Generator.{generated_images, AreGeneratedSections, IsLow};
ghost use Rattle.script_generator.specs.declared.images.TheConstants.{MOST_COUNT, THREADS};

use frame_parse::{FrameFault, Section, section_is_answered};
use reg_model::{NoMemory, Span};
use std::alloc::Global;

/// The threads of a generated script, which are numbered from 0.
pub const THREADS: u32 = 4;

/// The greatest number of images a thread.
pub const MOST_COUNT: u32 = 500;

/// The bytes of every section: a CIE as GCC writes it, an FDE for the first 32 addresses of the
/// image and one for the other 16, and the end.
const SECTION: [u8; 84] = [
    // The CIE: `zR`, alignments 1 and -8, return column 16, and what holds at a function's start.
    0x14, 0, 0, 0, 0, 0, 0, 0, 1, 0x7a, 0x52, 0, 1, 0x78, 0x10, 1, 0x1b, 0x0c, 7, 8, 0x90, 1, 0, 0,
    // A function that pushes its caller's frame pointer, and then has its own.
    0x1c, 0, 0, 0, 0x1c, 0, 0, 0, 0xe0, 0xef, 0xff, 0xff, 0x20, 0, 0, 0, 0, 0x41, 0x0e, 0x10, 0x86,
    2, 0x43, 0x0d, 6, 0, 0, 0, 0, 0, 0, 0,
    // One without rules of its own.
    0x14, 0, 0, 0, 0x3c, 0, 0, 0, 0xe0, 0xef, 0xff, 0xff, 0x10, 0, 0, 0, 0, 0, 0, 0, 0, 0, 0, 0,
    // The end.
    0, 0, 0, 0,
];

/// The first address of an image. Each thread has addresses of its own.
pub fn base_of(thread: u32, image: u32) -> u64
    requires { (thread < THREADS) × (image < MOST_COUNT) }
    ensures value { result ≡ generated_base thread image }
    ensures low { IsLow result }
{
    (thread as u64 + 1) * 0x1_0000_0000 + 64 * image as u64
}

/// The images of all threads, by their numbers.
pub fn images_of(alloc: Global, order: &[u32]) -> Result<Vec<Span>, NoMemory>
    requires { All (λ image. image < MOST_COUNT) order.now }
    ensures { IfOk result (λ images. images.items ≡ generated_images order.now) }
{
    let mut images = Vec::new(alloc);
    for thread in 0..THREADS {
        images = with_images(images, thread, order)?;
    }
    Ok(images)
}

/// With the images of a thread.
fn with_images(images: Vec<Span>, thread: u32, order: &[u32]) -> Result<Vec<Span>, NoMemory>
    requires thread { thread < THREADS }
    requires images { All (λ image. image < MOST_COUNT) order.now }
    ensures { IfOk result
        (λ r. r.items ≡ images.items ++ map (generated_span thread) order.now) }
{
    let mut images = images;
    for image in order {
        images.push(span_of(thread, *image))?;
    }
    Ok(images)
}

/// The span of an image: 48 addresses.
fn span_of(thread: u32, image: u32) -> Span
    requires { (thread < THREADS) × (image < MOST_COUNT) }
    ensures { result ≡ generated_span thread image }
{
    match Span::new(base_of(thread, image), 48) {
        Some(span) => span,
        None => unreachable!(),
    }
}

/// The sections of images.
pub fn sections_of(alloc: Global, images: &[Span]) -> Result<Vec<Section>, NoMemory>
    requires { All (λ image. IsLow image.first) images.now }
    ensures sections { IfOk result (λ sections. AreGeneratedSections images.now sections.items) }
    ensures whole { IfOk result (λ sections. All IsSectionOf sections.items) }
{
    let mut sections = Vec::with_capacity(alloc, images.len())?;
    for image in images {
        sections.push(section_at(alloc, image.first())?)?;
    }
    Ok(sections)
}

/// The section of the image that begins at an address.
fn section_at(alloc: Global, base: u64) -> Result<Section, NoMemory>
    requires { IsLow base }
    ensures address { IfOk result (λ section. section.address ≡ base + 4096) }
    ensures bytes { IfOk result (λ section. section.bytes ≡ generated_section_bytes) }
    ensures whole { IfOk result IsSectionOf }
{
    section_is_answered();
    match Section::read(alloc, base + 4096, &SECTION) {
        Ok(section) => Ok(section),
        Err(fault) => match fault {
            FrameFault::NoMemory => Err(NoMemory),
            _ => unreachable!(),
        },
    }
}
