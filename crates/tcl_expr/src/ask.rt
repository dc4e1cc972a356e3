use tcl_text::Text;
use tcl_words::Script;

/// What an evaluation has to be told before it goes on, or what it comes to.
#[derive(Drop)]
pub enum Ask {
    /// The value of the variable of this name. The name may be that of an element, as `${a(b)}` spells one.
    Variable(Text),
    /// The value of the element of the array of this name with this index: `$a(..)`, of which the index is put together
    /// first. The two stand apart, since an index may hold any text.
    Element(Text, Text),
    /// The result of a script in brackets, which is shared with the expression.
    Command(Script),
    /// The value of the expression, in decimal where it is an integer. Nothing more is asked.
    Value(Text),
}
