/// A window: the number of its application, and its own number there. Numbers count from 0 in each application and are never given
/// again, so the `Win` of a window that is gone means no window that is there.
#[derive(Clone, Copy, Debug, PartialEq, Eq)]
pub struct Win {
    pub owner: usize,
    pub number: u64,
}
