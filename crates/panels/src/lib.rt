//! Benches: panels of several authors, what a person does with them, and what they have to show.
#![tactic(auto)]

mod asking;
mod bench;
mod course;
mod drawing;
mod dues;
mod ending;
mod finding;
mod gesture;
mod isolation;
mod live;
mod look;
mod pane;
mod playing;
mod screen;
mod shape;
mod typing;
mod verdict;
mod words;

pub use bench::{
    Act, Answer, Bench, Entry, Fact, Gesture, Look, Pointing, Question, Target, Touch,
};
pub use drawing::{DrawnPanel, DrawnWindow, Scene, picture};
pub use dues::next_due;
pub use ending::{Ending, Raised, Stand, Stopped};
pub use finding::{Finding, Found};
pub use isolation::{Neighbours, beside};
pub use live::{Live, live_panels};
pub use pane::Miss;
pub use playing::{BenchFault, Played, play, sections_with};
pub use screen::{Screen, Spot};
pub use shape::{Shape, shapes};
pub use typing::{chord, typed};
pub use verdict::{compared, is_same};
