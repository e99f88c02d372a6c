// What is allowed: sizes, amounts, steps and texts.

pub const MAX_FACTS: usize = 128;

pub const MAX_ACTIONS: usize = 128;

pub const MAX_PREFERENCES: usize = 16;

pub const MAX_ROWS: usize = 12000;

// A cost, or a soft preference's weight: any number of 32 bits.
pub const MAX_AMOUNT: usize = 4294967295;

// The bytes of the longest file.
pub const MAX_FILE: usize = 8 + 5 * MAX_ROWS;

// The steps of within and always-within.
pub const MAX_DEADLINE: usize = 15;

// How many there are.
pub const DEADLINES: u32 = 16;

// Of a plan.
pub const MAX_STEPS: usize = 2048;

// Bytes of a plan's text.
pub const MAX_TEXT: usize = 65536;

// Of a plan: so many steps of the largest amount.
pub const MAX_COST: u64 = 8796093020160;

// Of an effect, a literal from every clause.
pub const MAX_CHOICES: usize = 64;

// Of a week.
pub const MAX_PLANS: usize = 64;
