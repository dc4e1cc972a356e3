//! What jobs come to. The functions do nothing: their contracts are the laws.

ghost use Rattle.tk_commands.specs.Laws.{Begins, Destroys, Dispatches, Settles};
ghost use Rattle.tk_commands.specs.Rests.{DueComes, Rests};

/// An event's scripts run one after another at global level, a step before each. A break ends the event, and so does an error, which is told (bind(n)).
pub fn dispatches()
    ensures { Dispatches }
{}

/// What is settled at a moment, and what `update` does, is what comes next of it, again and again (after(n), update(n)).
pub fn settles()
    ensures { Settles }
{}

/// Windows are destroyed one after another: the scripts of each one's Destroy event run, and then it is removed (destroy(n)).
pub fn destroys()
    ensures { Destroys }
{}

/// An application begins with its script, which takes no step to start; an error of it is told, and then all is settled.
pub fn begins()
    ensures { Begins }
{}

/// Where a settle has ended, nothing is left to do at the moment: there is no main window; or no event waits, no timer is due, and no idle script waits.
pub fn rests()
    ensures { Rests }
{}

/// While a timer is due and there is a main window, something comes next, so that a settle takes a step.
pub fn due_comes()
    ensures { DueComes }
{}
