//! The paths of files that addresses stand for, and the addresses of files by their paths.
//!
//! Its model: an address and a path are their lists of bytes, which are always UTF-8. `specs/Paths.antt` says which
//! path an address has, if any, and what the address of a path is.
//!
//! It promises that the calls give exactly what is defined and fail only for want of memory. [`path_of`] gives the
//! path that an address has, and none exactly where it has none. [`address_of`] gives the address of a path. An
//! address has one path at most ([`one_path`]). The address of a path has just that path, where this begins with a
//! slash and has no byte 0 ([`addresses_have_their_paths`]). All bytes are escaped but ASCII letters, digits and `/`,
//! `-`, `.`, `_` and `~` ([`escaped_bytes`]). Each call takes time in proportion to the bytes that it is given.
mod laws;
mod paths;

pub use laws::{
    addresses_have_their_paths, escaped_bytes, one_path, paths_and_addresses_written_out,
};
pub use paths::{ESCAPED, address_of, path_of};
