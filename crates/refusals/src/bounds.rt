//! The bounds on what may be handed in.

/// The most jobs of a tree.
pub const MOST_JOBS: usize = 4095;

/// The most axes of a kind of amount.
pub const MOST_AXES: u32 = 64;

/// The most that an axis of a job's work or output holds.
pub const AXIS_BOUND: u64 = 1_000_000;

/// The most minutes of a job.
pub const MINUTES_BOUND: u32 = 10_000;

/// The most benches of a hall.
pub const MOST_BENCHES: u32 = 64;

/// The most that an axis of a floor holds.
pub const FLOOR_BOUND: u64 = 1_000_000_000;

/// The most bytes of a text.
pub const MOST_BYTES: usize = 65_536;
