//! The handles of writers and of readers, as C keeps them: each is one pointer. What it leads to is
//! known to the logic alone. To let one go frees nothing: so one that is written over has to hold
//! nothing.

ghost use Rattle.std.specs.Prelude.{◌≡◌, Option, Some};
ghost use Rattle.std.specs.Coded.{coded_option};
ghost use Rattle.c_handle.specs.Handles.{LeadsSomewhere, handle_owns};
ghost use Rattle.fde_writer.specs.Sections.{FdeWriterData};
ghost use Rattle.fde_reader.specs.Readers.{FdeReaderData};
ghost use Rattle.fde_writer.specs.contracts.writer.FdeWriter.{the_row as writer_row};
ghost use Rattle.fde_reader.specs.contracts.reader.FdeReader.{the_row as reader_row};

use c_handle::Parts;
use fde_reader::FdeReader;
use fde_writer::FdeWriter;
use std::alloc::Global;
use std::marker::{Model, Send};

/// A writer, or nothing.
#[repr(C)]
#[derive(Drop)]
pub struct FdeWriterHandle {
    at: *mut u8,
    pub ghost held: { Option FdeWriterData } by { coded_option writer_row.coded },
}

impl Model for FdeWriterHandle {
    ghost also_owns = { λ h. handle_owns writer_row h.at h.held };
}

impl FdeWriterHandle {
    /// A handle of a writer.
    pub(crate) fn of(writer: Box<FdeWriter, Global>) -> FdeWriterHandle
        ensures { result.held ≡ Some writer.value }
    {
        FdeWriterHandle::of_parts(Parts::of(writer))
    }

    /// The writer. From here on the handle is nothing.
    pub(crate) fn open(self, alloc: Global) -> Box<FdeWriter, Global>
        requires { LeadsSomewhere self.held }
        ensures { self.held ≡ Some result.value }
    {
        self.into_parts(alloc).into_box()
    }

    fn of_parts(parts: Parts<FdeWriter, Global>) -> FdeWriterHandle
        ensures { result.held ≡ Some parts.value }
    {
        let Parts { ptr, alloc: _ } = parts;
        FdeWriterHandle { at: ptr as *mut u8 }
    }

    fn into_parts(self, alloc: Global) -> Parts<FdeWriter, Global>
        requires { LeadsSomewhere self.held }
        ensures { self.held ≡ Some result.value }
    {
        let FdeWriterHandle { at } = self;
        Parts {
            ptr: at as *mut FdeWriter,
            alloc,
        }
    }
}

/// A reader, or nothing.
#[repr(C)]
#[derive(Drop)]
pub struct FdeReaderHandle {
    at: *mut u8,
    pub ghost held: { Option FdeReaderData } by { coded_option reader_row.coded },
}

impl Model for FdeReaderHandle {
    ghost also_owns = { λ h. handle_owns reader_row h.at h.held };
}

impl FdeReaderHandle {
    /// A handle of a reader.
    pub(crate) fn of(reader: Box<FdeReader, Global>) -> FdeReaderHandle
        ensures { result.held ≡ Some reader.value }
    {
        FdeReaderHandle::of_parts(Parts::of(reader))
    }

    /// The reader. From here on the handle is nothing.
    pub(crate) fn open(self, alloc: Global) -> Box<FdeReader, Global>
        requires { LeadsSomewhere self.held }
        ensures { self.held ≡ Some result.value }
    {
        self.into_parts(alloc).into_box()
    }

    fn of_parts(parts: Parts<FdeReader, Global>) -> FdeReaderHandle
        ensures { result.held ≡ Some parts.value }
    {
        let Parts { ptr, alloc: _ } = parts;
        FdeReaderHandle { at: ptr as *mut u8 }
    }

    fn into_parts(self, alloc: Global) -> Parts<FdeReader, Global>
        requires { LeadsSomewhere self.held }
        ensures { self.held ≡ Some result.value }
    {
        let FdeReaderHandle { at } = self;
        Parts {
            ptr: at as *mut FdeReader,
            alloc,
        }
    }
}

unsafe impl Send for FdeReaderHandle {}
