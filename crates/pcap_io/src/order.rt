/// The order of the bytes of a number in a capture.
#[derive(Clone, Copy, Debug)]
pub(crate) enum Order {
    /// The highest first.
    Big,
    /// The lowest first.
    Little,
}
