// The line that the desk program prints: definitions and theorems.
#![tactic(auto)]

// The longest line: `verdict 21 name K record R up U` with K, R and U of 20 digits, which the largest usize has, and the line end.
pub const LINE_OCTETS: usize = 89;
