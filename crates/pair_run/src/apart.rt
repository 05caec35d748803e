// What one thread changes, on cache lines of its own.

/// A value with cache lines of its own: 64 unused bytes are on each side of it. Two threads that each change such a
/// value don't wait for each other's lines, wherever both values are.
#[derive(Drop)]
pub struct Apart<T> {
    /// Unused bytes before the value.
    pub before: [u64; 8],
    /// The value.
    pub value: T,
    /// Unused bytes after the value.
    pub after: [u64; 8],
}
