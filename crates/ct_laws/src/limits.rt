// How much the calls of a script take at most.

/// The most pages of a call, besides two for each page of a file that it writes on: tables, headers, and pages of directories
/// and of inodes.
pub const CALL_PAGES: u64 = 128;
