//! The fields of a file's header that its records depend on.

/// The byte order in which a file was written.
#[derive(Clone, Copy, Debug, PartialEq, Eq)]
pub enum ByteOrder {
    Little,
    Big,
}

/// The unit of a time stamp's fraction: microseconds or nanoseconds.
#[derive(Clone, Copy, Debug, PartialEq, Eq)]
pub enum Resolution {
    Micro,
    Nano,
}

/// The maximum captured length of a record.
pub const MAX_CAPTURED: u32 = 262_144;
