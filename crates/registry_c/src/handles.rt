//! The handles of clients and of readers, as C keeps them: each is one pointer. What it leads to is
//! known to the logic alone. To let one go frees nothing: so one that is written over has to hold
//! nothing.

ghost use Rattle.std.specs.Prelude.{◌≡◌, Option, Some};
ghost use Rattle.std.specs.Coded.{coded_option};
ghost use Rattle.c_handle.specs.Handles.{LeadsSomewhere, handle_owns};
ghost use Rattle.registry_client.specs.Clients.{ClientData};
ghost use Rattle.registry_client.specs.Readers.{ReaderData};
ghost use Rattle.registry_client.specs.contracts.client.Client.{the_row as client_row};
ghost use Rattle.registry_client.specs.contracts.reader.RegistryReader.{the_row as reader_row};

use c_handle::Parts;
use registry_client::{Client, RegistryReader};
use std::alloc::Global;
use std::marker::{Model, Send};

/// A client, or nothing.
#[repr(C)]
#[derive(Drop)]
pub struct ClientHandle {
    at: *mut u8,
    pub ghost held: { Option ClientData } by { coded_option client_row.coded },
}

impl Model for ClientHandle {
    ghost also_owns = { λ h. handle_owns client_row h.at h.held };
}

impl ClientHandle {
    /// A handle of a client.
    pub(crate) fn of(client: Box<Client, Global>) -> ClientHandle
        ensures { result.held ≡ Some client.value }
    {
        ClientHandle::of_parts(Parts::of(client))
    }

    /// The client. From here on the handle is nothing.
    pub(crate) fn open(self, alloc: Global) -> Box<Client, Global>
        requires { LeadsSomewhere self.held }
        ensures { self.held ≡ Some result.value }
    {
        self.into_parts(alloc).into_box()
    }

    fn of_parts(parts: Parts<Client, Global>) -> ClientHandle
        ensures { result.held ≡ Some parts.value }
    {
        let Parts { ptr, alloc: _ } = parts;
        ClientHandle { at: ptr as *mut u8 }
    }

    fn into_parts(self, alloc: Global) -> Parts<Client, Global>
        requires { LeadsSomewhere self.held }
        ensures { self.held ≡ Some result.value }
    {
        let ClientHandle { at } = self;
        Parts {
            ptr: at as *mut Client,
            alloc,
        }
    }
}

unsafe impl Send for ClientHandle {}

/// A reader, or nothing.
#[repr(C)]
#[derive(Drop)]
pub struct ReaderHandle {
    at: *mut u8,
    pub ghost held: { Option ReaderData } by { coded_option reader_row.coded },
}

impl Model for ReaderHandle {
    ghost also_owns = { λ h. handle_owns reader_row h.at h.held };
}

impl ReaderHandle {
    /// A handle of a reader.
    pub(crate) fn of(reader: Box<RegistryReader, Global>) -> ReaderHandle
        ensures { result.held ≡ Some reader.value }
    {
        ReaderHandle::of_parts(Parts::of(reader))
    }

    /// The reader. From here on the handle is nothing.
    pub(crate) fn open(self, alloc: Global) -> Box<RegistryReader, Global>
        requires { LeadsSomewhere self.held }
        ensures { self.held ≡ Some result.value }
    {
        self.into_parts(alloc).into_box()
    }

    fn of_parts(parts: Parts<RegistryReader, Global>) -> ReaderHandle
        ensures { result.held ≡ Some parts.value }
    {
        let Parts { ptr, alloc: _ } = parts;
        ReaderHandle { at: ptr as *mut u8 }
    }

    fn into_parts(self, alloc: Global) -> Parts<RegistryReader, Global>
        requires { LeadsSomewhere self.held }
        ensures { self.held ≡ Some result.value }
    {
        let ReaderHandle { at } = self;
        Parts {
            ptr: at as *mut RegistryReader,
            alloc,
        }
    }
}

unsafe impl Send for ReaderHandle {}
