//! Tag octets (X.690 8.1.2). A `TAGGED_n` is the context-specific tag [n], constructed; a `PRIMITIVE_n` is the same, primitive.

pub const BOOLEAN: u8 = 0x01;

pub const INTEGER: u8 = 0x02;

pub const BIT_STRING: u8 = 0x03;

pub const OCTET_STRING: u8 = 0x04;

pub const OBJECT_IDENTIFIER: u8 = 0x06;

pub const ENUMERATED: u8 = 0x0A;

pub const UTC_TIME: u8 = 0x17;

pub const GENERALIZED_TIME: u8 = 0x18;

pub const SEQUENCE: u8 = 0x30;

pub const TAGGED_0: u8 = 0xA0;

pub const TAGGED_1: u8 = 0xA1;

pub const TAGGED_2: u8 = 0xA2;

pub const PRIMITIVE_0: u8 = 0x80;

pub const PRIMITIVE_2: u8 = 0x82;
