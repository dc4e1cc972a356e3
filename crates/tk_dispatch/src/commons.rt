//! What the events of a long queue share.
ghost use Rattle.std.specs.Prelude.{◌≡◌, true, None, Some, IfOk, IfSome};
ghost use Rattle.tk_sequences.specs.Event.{bare_event};
ghost use Rattle.tk_sequences.specs.declared.event.EventKind.TheVariants.{Physical};

use crate::queued::{Common, QueuedEvent, split};
use std::alloc::{AllocError, Global};
use std::collections::HashMap;
use std::rc::Rc;
use tk_sequences::{Event, EventKind, EventType};

/// What the last events of each window and type have in common with the next one, if this comes at the same moment. They are hints: whether
/// they fit is looked at each time.
#[derive(Drop)]
pub(crate) struct Commons {
    rows: HashMap<(u64, EventType), Rc<Common>>,
}

impl Commons {
    /// Nothing. It takes no memory.
    pub(crate) fn new(alloc: Global) -> Commons {
        Commons {
            rows: HashMap::new(alloc),
        }
    }

    /// Whether nothing is kept.
    pub(crate) fn is_empty(&self) -> bool {
        self.rows.is_empty()
    }

    /// The event as it waits.
    pub(crate) fn queued(&mut self, alloc: Global, event: Event) -> Result<QueuedEvent, AllocError>
        ensures { IfOk result (λ queued. queued ≡ event) }
    {
        let (common, place) = split(event);
        let common = self.shared(alloc, common)?;
        Ok(QueuedEvent::sharing(common, place))
    }

    /// This, shared with an event of the same window and type that has it in common. An event with further fields shares nothing.
    fn shared(&mut self, alloc: Global, common: Common) -> Result<Rc<Common>, AllocError>
        ensures { IfOk result (λ shared. shared.value ≡ common) }
    {
        let Some(kind) = bare_type(&common.event) else {
            return Ok(Rc::new(alloc, common)?);
        };
        let key = (common.event.number, kind);
        if let Some(last) = self.rows.get(&key)
            && is_same(last.as_ref(), &common)
        {
            return last.clone();
        }
        let shared = Rc::new(alloc, common)?;
        self.rows.insert(key, shared.clone()?)?;
        Ok(shared)
    }
}

/// Whether the event lacks all fields.
fn is_bare(event: &Event) -> bool
    ensures { result ≡ true → event.now ≡ bare_event event.now.kind event.now.number event.now.path event.now.moment }
{
    event.state.is_none()
        && event.x.is_none()
        && event.y.is_none()
        && event.root_x.is_none()
        && event.root_y.is_none()
        && event.button.is_none()
        && event.key.is_none()
        && event.width.is_none()
        && event.height.is_none()
        && event.detail.is_none()
}

/// The type of an event that lacks all fields.
fn bare_type(event: &Event) -> Option<EventType>
    ensures { IfSome result (λ type. event.now ≡ bare_event (Physical type) event.now.number event.now.path event.now.moment) }
{
    match &event.kind {
        EventKind::Physical(kind) if is_bare(event) => Some(*kind),
        _ => None,
    }
}

/// Whether both are the same. It is false for events with further fields.
fn is_same(one: &Common, other: &Common) -> bool
    ensures { result ≡ true → one.now ≡ other.now }
{
    one.is_placed == other.is_placed && is_same_event(&one.event, &other.event)
}

/// Whether both events lack all fields and are the same.
fn is_same_event(one: &Event, other: &Event) -> bool
    ensures { result ≡ true → one.now ≡ other.now }
{
    match (bare_type(one), bare_type(other)) {
        (Some(kind), Some(other_kind)) => {
            kind == other_kind
                && one.number == other.number
                && one.moment == other.moment
                && one.path.as_str() == other.path.as_str()
        }
        _ => false,
    }
}
