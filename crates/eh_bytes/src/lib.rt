//! The bytes of `.eh_frame`, read one field at a time: fixed-width numbers, LEB128 numbers, encoded
//! pointers and runs of bytes. This is the lowest layer of the frame readers. It knows nothing of
//! records, programs or expressions, takes no memory, and stands on `byteorder` for numbers of
//! fixed width. Each read gives what the bytes spell and moves after it, or says what is wrong and
//! where, and then leaves the cursor where it was.
#![tactic(auto)]

mod cursor;
mod encoding;
mod fault;
mod leb;

pub use cursor::Cursor;
pub use encoding::{
    DW_EH_PE_absptr, DW_EH_PE_indirect, DW_EH_PE_omit, DW_EH_PE_pcrel, DW_EH_PE_sdata2,
    DW_EH_PE_sdata4, DW_EH_PE_sdata8, DW_EH_PE_sleb128, DW_EH_PE_udata2, DW_EH_PE_udata4,
    DW_EH_PE_udata8, DW_EH_PE_uleb128, application_of, is_pointer,
};
pub use fault::ByteFault;
