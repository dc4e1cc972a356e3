/// Where the upper left corner of a window lies, in pixels from that of the application's rectangle (winfo(n), `rootx` and `rooty`).
#[derive(Clone, Copy, Debug, PartialEq, Eq)]
pub struct Corner {
    pub x: u64,
    pub y: u64,
}
