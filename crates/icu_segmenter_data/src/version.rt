//! The version of the Unicode Standard.
// Written by generate/generate.py from the rows of Unicode 18.0. Do not edit.

/// The version of the Unicode Standard whose properties all data have: major, minor and update.
pub const UNICODE_VERSION: (u8, u8, u8) = (18, 0, 0);
