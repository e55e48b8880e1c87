// The limits of specs/Limits.antt as constants. A function that used another number would not meet its contract.
#![tactic(auto)]

pub const MAX_LABEL_OCTETS: usize = 63;

pub const MAX_NAME_OCTETS: usize = 255;

pub const MAX_ISSUER_OCTETS: usize = 253;

pub const MAX_REQUEST_OCTETS: usize = 16384;

pub const MAX_NAMES: usize = 250;

pub const MAX_BOOK_OCTETS: usize = 49152;

pub const MAX_RECORDS: usize = 1024;

pub const MAX_DATA_OCTETS: usize = 4096;

pub const MAX_LINE_OCTETS: usize = 16384;

pub const MAX_TAG_OCTETS: usize = 255;

pub const MAX_ACCOUNT_OCTETS: usize = 255;

pub const MAX_ALIASES: usize = 8;
