//! The call frame instructions by the standard's names and numbers (DWARF 5, section 7.24). The
//! first three are primary opcodes, by the two high bits of an instruction's byte; the low six hold
//! an operand. The others are extended opcodes, whole bytes whose two high bits are 0.

pub const DW_CFA_advance_loc: u8 = 0x1;

pub const DW_CFA_offset: u8 = 0x2;

pub const DW_CFA_restore: u8 = 0x3;

pub const DW_CFA_nop: u8 = 0x00;

pub const DW_CFA_set_loc: u8 = 0x01;

pub const DW_CFA_advance_loc1: u8 = 0x02;

pub const DW_CFA_advance_loc2: u8 = 0x03;

pub const DW_CFA_advance_loc4: u8 = 0x04;

pub const DW_CFA_offset_extended: u8 = 0x05;

pub const DW_CFA_restore_extended: u8 = 0x06;

pub const DW_CFA_undefined: u8 = 0x07;

pub const DW_CFA_same_value: u8 = 0x08;

pub const DW_CFA_register: u8 = 0x09;

pub const DW_CFA_remember_state: u8 = 0x0a;

pub const DW_CFA_restore_state: u8 = 0x0b;

pub const DW_CFA_def_cfa: u8 = 0x0c;

pub const DW_CFA_def_cfa_register: u8 = 0x0d;

pub const DW_CFA_def_cfa_offset: u8 = 0x0e;

pub const DW_CFA_def_cfa_expression: u8 = 0x0f;

pub const DW_CFA_expression: u8 = 0x10;

pub const DW_CFA_offset_extended_sf: u8 = 0x11;

pub const DW_CFA_def_cfa_sf: u8 = 0x12;

pub const DW_CFA_def_cfa_offset_sf: u8 = 0x13;

pub const DW_CFA_val_offset: u8 = 0x14;

pub const DW_CFA_val_offset_sf: u8 = 0x15;

pub const DW_CFA_val_expression: u8 = 0x16;

/// Of the GNU tools: how many bytes of arguments stand on the stack.
pub const DW_CFA_GNU_args_size: u8 = 0x2e;
