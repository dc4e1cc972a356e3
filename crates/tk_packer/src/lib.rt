//! The packer (pack(n)): which windows are packed in which master, and the arrangements that are kept.
#![tactic(auto)]

mod arrangements;
mod ask;
mod asked;
mod behind;
mod building;
mod changes;
mod groups;
mod kept;
mod kept_layout;
mod layout;
mod layout_laws;
mod lists;
mod own;
mod packed;
mod parcel;
mod places;
mod rearranging;
mod rectangles;
mod repacking;
mod request;
mod resizing;
mod same;
mod shape;
mod showing;
mod spread;
mod standing;
mod table;
mod wanted;

pub use arrangements::Arrangements;
pub use changes::PlaceChange;
pub use kept::KeptArrangement;
pub use kept_layout::KeptLayout;
pub use layout::{lay_out, requested_size};
pub use layout_laws::{laid_out_is_settled, old_places_are_no_input};
pub use packed::Packed;
pub use places::arrange;
pub use request::{Anchor, Fill, Pads, Request, Side};
pub use shape::Shape;
pub use table::PackTable;
pub use wanted::request_of;
