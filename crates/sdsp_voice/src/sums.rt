/// What the voices of one sample add up to, without and with echo on.
#[derive(Clone, Copy)]
pub struct Sums {
    /// The sum of all voices on the left.
    pub left: i16,
    /// The sum of all voices on the right.
    pub right: i16,
    /// The sum on the left of the voices with echo on.
    pub echo_left: i16,
    /// The sum on the right of the voices with echo on.
    pub echo_right: i16,
}
