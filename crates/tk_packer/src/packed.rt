use crate::Request;

/// A packed window. The numbers are those of windows of one application.
#[derive(Clone, Copy, Debug, PartialEq, Eq)]
pub struct Packed {
    /// The window that it is packed in.
    pub master: u64,
    pub number: u64,
    pub request: Request,
}
