//! A law of the bindings of classes, as the contract of a function that does nothing.
ghost use Rattle.tk_panel.specs.ClassLaws.{ClassesBindSequences};

/// What the classes of widgets bind are sequences, all 20 of them (bind(n)).
pub fn classes_bind_sequences()
    ensures { ClassesBindSequences }
{}
