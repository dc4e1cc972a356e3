//! What happens on a bench.

use crate::ending::Ending;
use crate::finding::Finding;
use crate::screen::Screen;
use tk_session::EventLine;

/// What has happened so far.
#[derive(Drop)]
pub(crate) struct Course {
    pub screen: Screen,
    /// The lines that gestures became.
    pub events: Vec<EventLine>,
    pub findings: Vec<Finding>,
    /// How each panel ended, by its slot; none before the end.
    pub endings: Vec<Ending>,
}
