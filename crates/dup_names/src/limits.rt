//! The limits of sites, contents and inputs, each stated once.

/// The bytes of a name.
pub const MAX_NAME_BYTES: usize = 32;

/// The bytes of a key.
pub const MAX_KEY_BYTES: usize = 48;

/// The bytes of a path.
pub const MAX_PATH_BYTES: usize = 200;

/// The bytes of a family's prefix.
pub const MAX_PREFIX_BYTES: usize = 120;

/// The bytes of a text: of a row's field, or of a statement `=`.
pub const MAX_TEXT_BYTES: usize = 4096;

/// The kinds of a site.
pub const MAX_KINDS: usize = 64;

/// The fields of a kind.
pub const MAX_FIELDS: usize = 32;

/// The templates of a site.
pub const MAX_TEMPLATES: usize = 256;

/// The page declarations of a site.
pub const MAX_PAGE_RULES: usize = 256;

/// The statements of a template, those within others included.
pub const MAX_STATEMENTS: usize = 4096;

/// How deep statements stand within others.
pub const MAX_NESTING: usize = 8;

/// The changes of a commit.
pub const MAX_CHANGES: usize = 256;

/// The rows of a kind.
pub const MAX_ROWS: u32 = 4096;

/// The commits of a journal.
pub const MAX_COMMITS: u64 = 1_048_576;

/// The bytes of a journal's commits.
pub const MAX_JOURNAL_BYTES: u64 = 1_073_741_824;

/// The bytes of a line of an input, without what ends it.
pub const MAX_LINE_BYTES: usize = 262_144;

/// The bytes of an input that is read line by line.
pub const MAX_INPUT_BYTES: u64 = 1_073_741_824;
