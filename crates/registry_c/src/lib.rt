//! The registry for C and C++: clients and readers behind handles that C keeps.
//!
//! Above the clients and the readers (`registry_client`). Each export opens a handle, calls what it
//! leads to once, tells what came of it, and gives the handle back.
#![tactic(auto)]

mod clients;
mod find;
mod handles;
mod readers;
mod updates;

pub use clients::{
    registry_c_close, registry_c_join, registry_c_left, registry_c_new, registry_c_seen,
    registry_c_split,
};
pub use find::{
    registry_c_find, registry_c_find_cached, registry_c_try_loaded, registry_c_try_registered,
};
pub use handles::{ClientHandle, ReaderHandle};
pub use readers::{
    registry_c_reader, registry_c_reader_again, registry_c_reader_drop, registry_c_reader_find,
    registry_c_reader_try_loaded, registry_c_reader_try_registered,
};
pub use updates::{
    registry_c_deregister, registry_c_load, registry_c_register, registry_c_replace,
    registry_c_unload,
};
