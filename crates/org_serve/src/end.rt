//! How serving ends.
/// How serving ended.
#[derive(Clone, Copy, Debug)]
pub enum ServeEnd {
    /// The input ended, and every accepted command is settled.
    End,
    /// Accepted commands are given up. Memory for the last settling was refused; or the input was
    /// to be done whole, and a line of it wasn't done, or it ended without a settling.
    Unsettled,
    /// The input ended, or a line of it wasn't done, and the device has failed.
    Device,
    /// A read failed, or no more reads may be made.
    Read,
    /// A write or a flush failed.
    Write,
}
