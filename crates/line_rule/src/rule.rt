/// The record of the line rule.
#[derive(Drop)]
pub struct LineRule<K> {
    /// The line, in the first cells.
    order: [u32; 4096],
    /// How many jobs are booked: those at the first positions of the line.
    booked: usize,
    /// What would be held if every booked job that waits ran too.
    total: K,
}
