//! Sets the limits of leases.

/// Limits how many turns are out at once.
pub const MAX_LEASES: usize = 64;

/// Counts the numbers that turns can have, from 0 to one less than this.
pub const LEASE_NUMBERS: u64 = 9_223_372_036_854_775_808;

/// Counts the instants: the greatest is 2^40.
pub(crate) const ALL_INSTANTS: u64 = 1_099_511_627_777;
