// The powers of 2 at which numbers of 32 bits end, by name, as wide as sums need them: 2 ^ 31 and 2 ^ 32.
pub const HALF32: u64 = 2147483648;

pub const WHOLE32: u64 = 4294967296;
