/// Memory was refused to the application in a slot.
#[derive(Clone, Copy, Debug, PartialEq, Eq)]
pub struct Unserved {
    pub slot: usize,
}
