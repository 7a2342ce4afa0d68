//! The bounds within which a text spells a stamp.

/// The most parentheses inside one another.
pub const MOST_NESTED: usize = 2048;

/// The greatest sum of the numbers on the way from the root to a node.
pub const GREATEST_SUM: u64 = 9_223_372_036_854_775_807;
