//! What a bench says: the panels are applications of a session, with slots from 0 on in their order.

use tcl_text::Text;
use tk_base::Rect;
use tk_session::{AppBlock, HostLine};

/// A window of a panel, and a place in it.
#[derive(Drop)]
pub struct Target {
    /// The panel's slot.
    pub slot: usize,
    /// Its path, as a section writes it.
    pub window: String,
    /// From its left edge, in pixels; its middle where none is said.
    pub x: Option<u64>,
    /// From its upper edge, in pixels; its middle where none is said.
    pub y: Option<u64>,
}

/// What a button does where the pointer has come to.
#[derive(Clone, Copy, PartialEq, Eq)]
pub enum Touch {
    Click,
    DoubleClick,
    Press,
    Release,
    /// The pointer only comes there.
    Move,
}

/// The pointer comes to a window, and a button does something there.
#[derive(Drop)]
pub struct Pointing {
    pub target: Target,
    /// How many moves bring the pointer there from where it was, each its share of what is left of the way; 0 is as 1, which comes there at once.
    pub moves: u32,
    pub touch: Touch,
    /// The button, from 1 to 5.
    pub button: u32,
    /// Whether the panel is given the keyboard before.
    pub takes_keys: bool,
}

/// What a person does.
#[derive(Drop)]
pub enum Gesture {
    Pointer(Pointing),
    /// Keys for the panel that has the keyboard; some panel has to.
    Keys(Vec<HostLine>),
    /// Lines of a session as they are.
    Lines(Vec<HostLine>),
}

/// What a window is to show.
#[derive(Drop)]
pub enum Fact {
    /// It is there, or it isn't.
    There(bool),
    /// What stands behind all else in its line.
    Text(String),
    Class(String),
    /// Its place in its parent, in pixels.
    Place(Rect),
    Mapped(bool),
}

/// What is asked of a panel that its section doesn't tell. Windows are told by their paths.
#[derive(Drop)]
pub enum Question {
    /// The value of an option of a window, by a word that means it (`cget` of options(n)).
    Option { window: String, name: Text },
    /// What a window tells as its value: the text that it shows, or the list of a listbox's items.
    Value(String),
    /// The rows of a listbox that are selected, from 0 on (`curselection` of listbox(n)).
    Selection(String),
    /// The active row of a listbox, from 0 on.
    Active(String),
    /// How many characters stand before the cursor of an entry.
    Cursor(String),
    /// The path of the window that gets the events of keys while the panel has the keyboard.
    Focus,
    /// The title of the main window.
    Title,
    /// The text of a global variable, or of the element of an array by `array(index)`.
    Variable(Text),
}

/// What is answered.
#[derive(Drop)]
pub enum Answer {
    /// There is no such window, option or variable, or no such thing of a window of its class.
    Nothing,
    Text(Text),
    Number(usize),
    Rows(Vec<usize>),
}

/// What a section is to tell, or what is to be answered.
#[derive(Drop)]
pub enum Look {
    /// The panel answers this.
    Asked { question: Question, wanted: Answer },
    Window { path: String, fact: Fact },
    /// A line of the transcript has this text behind its moment.
    Says(String),
    /// An error stands in the transcript, or none.
    HasError(bool),
    /// `running`, `exhausted` or `closed`.
    State(String),
    /// So many steps are left, or more.
    LeastSteps(u64),
    /// So many timers and idle scripts wait.
    Waiting(u64),
}

/// What happens on a bench.
#[derive(Drop)]
pub enum Act {
    Do(Gesture),
    /// What is looked for in the section of the panel in a slot.
    See { slot: usize, looks: Vec<Look> },
}

/// What happens, and when.
#[derive(Drop)]
pub struct Entry {
    /// In milliseconds.
    pub moment: u64,
    pub act: Act,
}

/// Panels side by side, and what happens to them, one thing after another.
#[derive(Drop)]
pub struct Bench {
    pub panels: Vec<AppBlock>,
    pub entries: Vec<Entry>,
    /// The moment of the end, in milliseconds.
    pub end: u64,
}
