//! The kinds of bad input that a status tells by number (this project's own).

/// The input doesn't begin with its four letters.
pub const KIND_MAGIC: u32 = 2;
/// The input's version isn't one that is read.
pub const KIND_VERSION: u32 = 3;
/// A header names an operation that isn't in the table; in a stream also a length that its operation doesn't allow.
pub const KIND_OPERATION: u32 = 4;
/// A record's body is longer than a body may be.
pub const KIND_BODY_LONG: u32 = 5;
/// A record's body has a length that its operation doesn't allow.
pub const KIND_BODY_SHAPE: u32 = 6;
/// A byte stands after the closing record.
pub const KIND_AFTER_END: u32 = 7;
/// A header would end past byte 2^62.
pub const KIND_HEADER_LATE: u32 = 9;
