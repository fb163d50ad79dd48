//! The encodings of pointers, by the names that the LSB gives them: the low four bits are the
//! format of the number, bits 4 to 6 what is added to it, and the highest bit marks the address of
//! a pointer.

ghost use Rattle.std.specs.Prelude.{◌≡◌};
ghost use Rattle.eh_bytes.specs.Pointer.{is_format, application_of, is_pointer};

/// A number of eight bytes; nothing is added.
pub const DW_EH_PE_absptr: u8 = 0x00;
/// An unsigned LEB128 number.
pub const DW_EH_PE_uleb128: u8 = 0x01;
/// Two bytes.
pub const DW_EH_PE_udata2: u8 = 0x02;
/// Four bytes.
pub const DW_EH_PE_udata4: u8 = 0x03;
/// Eight bytes.
pub const DW_EH_PE_udata8: u8 = 0x04;
/// A signed LEB128 number.
pub const DW_EH_PE_sleb128: u8 = 0x09;
/// Two bytes with a sign.
pub const DW_EH_PE_sdata2: u8 = 0x0a;
/// Four bytes with a sign.
pub const DW_EH_PE_sdata4: u8 = 0x0b;
/// Eight bytes with a sign.
pub const DW_EH_PE_sdata8: u8 = 0x0c;
/// The address of the pointer's first byte is added.
pub const DW_EH_PE_pcrel: u8 = 0x10;
/// What is read is the address of the pointer.
pub const DW_EH_PE_indirect: u8 = 0x80;
/// There is no pointer.
pub const DW_EH_PE_omit: u8 = 0xff;

/// What an encoding adds to the number, in bits 4 to 6.
pub fn application_of(encoding: u8) -> u8
    ensures { result ≡ application_of encoding }
{
    encoding / 16 % 8 * 16
}

/// Whether the low four bits of an encoding are a known format.
pub(crate) fn is_format(format: u8) -> bool
    ensures { result ≡ is_format format }
{
    format <= DW_EH_PE_udata8 || DW_EH_PE_sleb128 <= format && format <= DW_EH_PE_sdata8
}

/// Whether a pointer in this encoding is read: a known format, as read or with the field's address
/// added.
pub fn is_pointer(encoding: u8) -> bool
    ensures { result ≡ is_pointer encoding }
{
    let application = application_of(encoding);
    is_format(encoding % 16) && (application == DW_EH_PE_absptr || application == DW_EH_PE_pcrel)
}
