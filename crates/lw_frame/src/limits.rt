// The limits of a stream.

/// The most bytes of a stream that a reader is fed.
pub const LONGEST_SESSION: u64 = 1 << 40;

/// The longest body of a message, in bytes.
pub const LONGEST_BODY: u64 = 16_777_216;

/// The longest header part of a message, in bytes.
pub const LONGEST_HEADER_PART: usize = 4_096;
