//! What holds without COMPLEX.

/// Lock entries without ENTRIES.
pub const DEFAULT_ENTRIES: u32 = 64;

/// Requests that a task may have without LIMIT.
pub const DEFAULT_LIMIT: u32 = 4096;
