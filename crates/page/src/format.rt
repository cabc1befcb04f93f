// The numbers of the page's format: a tag, then places of eight columns each.

// The byte with which a bag's page begins.
pub const TAG: u8 = 0xC9;

// How many places a page has.
pub const PLACES: usize = 32;

// How many columns a place has.
pub const COLUMNS: usize = 8;

// How many bytes the rules speak of. Bytes after them are never read by a rule and never changed.
pub const PAGE_LENGTH: usize = 1 + PLACES * COLUMNS;

// The largest kind.
pub const LAST_KIND: u32 = 999;

// The most items that a stack can have.
pub const MOST_ITEMS: u32 = 99_999;
