//! The ends of `int`.

/// The least `int`, -2^95.
pub const INT_MIN: i128 = -39614081257132168796771975168;

/// The greatest `int`, 2^95 - 1.
pub const INT_MAX: i128 = 39614081257132168796771975167;
