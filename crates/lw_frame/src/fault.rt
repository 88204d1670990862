// Why a stream gives no further body.

/// Why a stream gives no further body.
#[derive(Clone, Copy, Debug, PartialEq, Eq)]
pub enum FrameFault {
    /// A line of a header part that has no colon, has an empty name, is a `Content-Length` whose
    /// value is not 1 to 10 digits, or is a second `Content-Length`: the offset of that line in the
    /// stream. Also a header part of which 4,096 bytes hold no end: the offset of the header part.
    BadHeader(u64),
    /// A header part that ends without a `Content-Length`: its offset in the stream.
    NoLength(u64),
    /// A body of more than 16,777,216 bytes: its length.
    TooLong(u64),
    /// The stream was closed inside a message: how many bytes of the body are missing, and 0 inside
    /// the header part.
    Truncated(u64),
}
