//! The bytes of operations, by the names that DWARF 5 gives them (section 7.7.1, table 7.9).
//! `lit0` to `lit31` follow one another, and so do `breg0` to `breg16`. `bra` and `reg0` are not
//! among the operations here: they stand right after ranges that are.

pub(crate) const DW_OP_addr: u8 = 0x03;

pub(crate) const DW_OP_deref: u8 = 0x06;

pub(crate) const DW_OP_const1u: u8 = 0x08;

pub(crate) const DW_OP_const1s: u8 = 0x09;

pub(crate) const DW_OP_const2u: u8 = 0x0a;

pub(crate) const DW_OP_const2s: u8 = 0x0b;

pub(crate) const DW_OP_const4u: u8 = 0x0c;

pub(crate) const DW_OP_const4s: u8 = 0x0d;

pub(crate) const DW_OP_const8u: u8 = 0x0e;

pub(crate) const DW_OP_const8s: u8 = 0x0f;

pub(crate) const DW_OP_constu: u8 = 0x10;

pub(crate) const DW_OP_consts: u8 = 0x11;

pub(crate) const DW_OP_dup: u8 = 0x12;

pub(crate) const DW_OP_drop: u8 = 0x13;

pub(crate) const DW_OP_over: u8 = 0x14;

pub(crate) const DW_OP_pick: u8 = 0x15;

pub(crate) const DW_OP_swap: u8 = 0x16;

pub(crate) const DW_OP_rot: u8 = 0x17;

pub(crate) const DW_OP_abs: u8 = 0x19;

pub(crate) const DW_OP_and: u8 = 0x1a;

pub(crate) const DW_OP_minus: u8 = 0x1c;

pub(crate) const DW_OP_mul: u8 = 0x1e;

pub(crate) const DW_OP_neg: u8 = 0x1f;

pub(crate) const DW_OP_not: u8 = 0x20;

pub(crate) const DW_OP_or: u8 = 0x21;

pub(crate) const DW_OP_plus: u8 = 0x22;

pub(crate) const DW_OP_plus_uconst: u8 = 0x23;

pub(crate) const DW_OP_shl: u8 = 0x24;

pub(crate) const DW_OP_shr: u8 = 0x25;

pub(crate) const DW_OP_shra: u8 = 0x26;

pub(crate) const DW_OP_xor: u8 = 0x27;

pub(crate) const DW_OP_bra: u8 = 0x28;

pub(crate) const DW_OP_eq: u8 = 0x29;

pub(crate) const DW_OP_ge: u8 = 0x2a;

pub(crate) const DW_OP_gt: u8 = 0x2b;

pub(crate) const DW_OP_le: u8 = 0x2c;

pub(crate) const DW_OP_lt: u8 = 0x2d;

pub(crate) const DW_OP_ne: u8 = 0x2e;

pub(crate) const DW_OP_lit0: u8 = 0x30;

pub(crate) const DW_OP_reg0: u8 = 0x50;

pub(crate) const DW_OP_breg0: u8 = 0x70;

pub(crate) const DW_OP_breg16: u8 = 0x80;

pub(crate) const DW_OP_nop: u8 = 0x96;
