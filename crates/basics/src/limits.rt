// The limits of documents 01 and 02, under names.

// Claims in a study, and so a closing count.
pub const MOST_CLAIMS: u32 = 500000;

// Check 9: thirtieths of a group, and expected recoveries or deaths of one, from minus to plus.
pub const MOST_THIRTIETHS: u64 = 27000000000;

pub const MOST_EXPECTED: u64 = 27000000000000000;

// A benefit in hundreds of dollars a month, and so how often a claim counts in the weighted set.
pub const MOST_BENEFIT: u8 = 200;

// Records of a run with corrections.
pub const MOST_RECORDS: usize = 60000;

// Rows of a claim file, one for each month of duration.
pub const MOST_ROWS: usize = 2000;

// Open claims that the limit on reserves is judged on.
pub const MOST_OPEN_CLAIMS: usize = 2000;

// Bytes of a block of the claim file.
pub const BLOCK_BYTES: usize = 512;

// Numbers of a cell of the rate table: 479 recovery rates and 479 death rates.
pub const CELL_NUMBERS: usize = 958;

// The last duration with rates of its own.
pub const LAST_DURATION: u32 = 480;

// What a call answers where a lent list has not its length, or a record not its form.
pub const NO_FORM: u8 = 255;
