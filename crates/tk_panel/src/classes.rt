//! An application's bindings of the widgets' classes.
ghost use Rattle.std.specs.Prelude.{◌≡◌, Ok, OnErr, OnOk, map};
ghost use Rattle.tk_options.specs.Rows.{binding as binding_of};
ghost use Rattle.tk_panel.specs.ClassBindings.{with_class, with_class_bindings, with_row, with_rows, with_sequence, without_class, without_class_bindings};
ghost use Rattle.tk_patterns.specs.Own.{without_tag};
ghost use Rattle.tk_patterns.specs.Shared.{LeavesOthers, own_of};

use std::alloc::{AllocError, Global};
use tcl_text::Text;
use tcl_text::message::short_text;
use tk_base::Kind;
use tk_options::{BindingRow, row_of};
use tk_patterns::{BindFault, BindTable};
use tk_sequences::{Sequence, SequenceFault};

/// Gives an application the 20 bindings of the classes Button, Entry and Listbox (bind(n)). After want of memory it has none of these classes.
pub fn bind_classes(alloc: Global, bindings: &mut BindTable, slot: usize) -> Result<(), AllocError>
    ensures own { OnOk result (own_of slot bindings.new ≡ with_class_bindings (own_of slot bindings.old)) }
    ensures others { LeavesOthers slot bindings.old bindings.new }
    ensures kept { OnOk result (without_class_bindings (own_of slot bindings.new) ≡ without_class_bindings (own_of slot bindings.old)) }
    ensures err { OnErr result (own_of slot bindings.new ≡ without_class_bindings (own_of slot bindings.old)) }
{
    match bind_each(alloc, bindings, slot) {
        Ok(()) => Ok(()),
        Err(refused) => {
            unbind_classes(bindings, slot);
            Err(refused)
        }
    }
}

/// Takes an application's bindings of the three classes out. It takes no memory.
pub fn unbind_classes(bindings: &mut BindTable, slot: usize)
    ensures own { own_of slot bindings.new ≡ without_class_bindings (own_of slot bindings.old) }
    ensures others { LeavesOthers slot bindings.old bindings.new }
{
    bindings.unbind_all(slot, Kind::Button.class());
    bindings.unbind_all(slot, Kind::Entry.class());
    bindings.unbind_all(slot, Kind::Listbox.class());
}

/// Binds what each of the three classes has.
fn bind_each(alloc: Global, bindings: &mut BindTable, slot: usize) -> Result<(), AllocError>
    ensures own { OnOk result (own_of slot bindings.new ≡ with_class_bindings (own_of slot bindings.old)) }
    ensures others { LeavesOthers slot bindings.old bindings.new }
    ensures kept { without_class_bindings (own_of slot bindings.new) ≡ without_class_bindings (own_of slot bindings.old) }
{
    bind_class(alloc, bindings, slot, Kind::Button)?;
    bind_class(alloc, bindings, slot, Kind::Entry)?;
    bind_class(alloc, bindings, slot, Kind::Listbox)
}

/// Binds what the class of a kind of widget has.
fn bind_class(
    alloc: Global,
    bindings: &mut BindTable,
    slot: usize,
    kind: Kind,
) -> Result<(), AllocError>
    ensures own { OnOk result (own_of slot bindings.new ≡ with_class kind (own_of slot bindings.old)) }
    ensures others { LeavesOthers slot bindings.old bindings.new }
    ensures kept { without_class kind (own_of slot bindings.new) ≡ without_class kind (own_of slot bindings.old) }
{
    bind_rows(alloc, bindings, slot, kind.class(), row_of(kind).bindings)
}

/// Binds rows for a tag, one after another.
#[tactic(auto, unfolding(crate::specs::ClassBindings::with_rows))]
fn bind_rows(
    alloc: Global,
    bindings: &mut BindTable,
    slot: usize,
    class: &str,
    rows: &[BindingRow],
) -> Result<(), AllocError>
    ensures own { OnOk result (own_of slot bindings.new
        ≡ with_rows class.now (map (λ row. binding_of row.0.now row.1.now) rows.now) (own_of slot bindings.old)) }
    ensures others { LeavesOthers slot bindings.old bindings.new }
    ensures kept { without_tag class.now (own_of slot bindings.new) ≡ without_tag class.now (own_of slot bindings.old) }
{
    let mut rest = rows;
    while let Some((row, later)) = rest.split_first() {
        bind_row(alloc, bindings, slot, class, *row)?;
        rest = later;
    }
    Ok(())
}

/// Binds a script to a sequence for a tag.
#[tactic(auto, unfolding(crate::specs::ClassBindings::with_row))]
fn bind_row(
    alloc: Global,
    bindings: &mut BindTable,
    slot: usize,
    class: &str,
    row: BindingRow,
) -> Result<(), AllocError>
    ensures own { OnOk result (own_of slot bindings.new
        ≡ with_row class.now (binding_of row.0.now row.1.now) (own_of slot bindings.old)) }
    ensures others { LeavesOthers slot bindings.old bindings.new }
    ensures kept { without_tag class.now (own_of slot bindings.new) ≡ without_tag class.now (own_of slot bindings.old) }
{
    let class = short_text(alloc, class)?;
    let text = short_text(alloc, row.0)?;
    let script = short_text(alloc, row.1)?;
    match Sequence::parse(alloc, &text) {
        Ok(sequence) => bind(bindings, slot, class, sequence, script),
        Err(SequenceFault::NoMemory) => Err(AllocError),
        Err(_) => Ok(()),
    }
}

/// Binds a script, if there is room for one more.
fn bind(
    bindings: &mut BindTable,
    slot: usize,
    class: Text,
    sequence: Sequence,
    script: Text,
) -> Result<(), AllocError>
    ensures own { OnOk result (own_of slot bindings.new ≡ with_sequence class script (own_of slot bindings.old) (Ok sequence)) }
    ensures others { LeavesOthers slot bindings.old bindings.new }
    ensures kept { without_tag class (own_of slot bindings.new) ≡ without_tag class (own_of slot bindings.old) }
{
    match bindings.bind(slot, class, sequence, script) {
        Ok(()) => Ok(()),
        Err(BindFault::Full) => Ok(()),
        Err(BindFault::NoMemory) => Err(AllocError),
    }
}
