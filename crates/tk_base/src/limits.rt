/// The last moment of a session, in milliseconds, and the longest that a timer waits.
pub const MAX_MOMENT: u64 = 1_000_000_000_000;

/// The last pixel column or row at which an application may begin, and its greatest width and height.
pub const MAX_PIXELS: u32 = 32_767;

/// The last pixel column or row that the pointer is at.
pub const MAX_PLACE: u32 = 65_535;
