ghost use Rattle.tk_host.specs.Bounds.{BoundedStages};
ghost use Rattle.tk_host.specs.BySettle.{AloneBySettle, PassedBySettle};
ghost use Rattle.tk_host.specs.Dues.{PassedByDues, TurnsByDues};
ghost use Rattle.tk_host.specs.FirstFormat.{AloneWithoutRefills};
ghost use Rattle.tk_host.specs.Passes.{PassesBySettle};
ghost use Rattle.tk_host.specs.PassesByJob.{PassedPasses};
ghost use Rattle.tk_host.specs.Ranges.{AloneInRange, RoutesInRange};
ghost use Rattle.tk_host.specs.Refusals.{OneRefusal};
ghost use Rattle.tk_host.specs.Sections.{EachByItself};
ghost use Rattle.tk_host.specs.Used.{AllWithin, UsedAndLeft};

use tk_app::AliasMeaning;

/// The section of an application is that of its own name, size, script, budget and aliases and of the events that are routed to it, in the
/// phase that is reached: two lists of calls that agree on these give it the same section, in whatever slots and whatever else they add.
pub fn each_by_itself<M: AliasMeaning>()
    ensures { EachByItself M.answer }
{}

/// A call is refused with one fault alone, the first that applies; where one is, not none applies.
pub fn one_refusal<M: AliasMeaning>()
    ensures { OneRefusal M }
{}

/// In a stage at most the steps are taken that the applications had left at its start, and those that its events grant.
pub fn bounded_stages<M: AliasMeaning>()
    ensures { BoundedStages M.answer }
{}

/// What is due of an application's own up to a moment is done from due moment to due moment, the earliest first: in the moments between
/// nothing is to be done.
pub fn passed_by_dues<M: AliasMeaning>()
    ensures { PassedByDues M.answer }
{}

/// The same as a relation: where nothing of an application is due by a moment, it has reached it; else what is due next is done, and it goes on from there.
pub fn passed_passes<M: AliasMeaning>()
    ensures { PassedPasses M.answer }
{}

/// So are the turns on the way told: they are those of the due moments' stages, the earliest first, and between them nobody has one.
pub fn turns_by_dues<M: AliasMeaning>()
    ensures { TurnsByDues M.answer }
{}

/// An application by itself comes to the same by anything that meets the equations of `update` and *Settle* (the first item that exists of a queued
/// event, a due timer, a layout that changes something and a round of idle scripts, and that again): nothing of it rests on the jobs that do it. So does
/// any application from moment to moment. Where its windows are numbered as they were made, it comes to a moment from due moment to due moment, the
/// earliest first, as the relation *Passes* says, and to nothing else.
pub fn alone_by_settle<M: AliasMeaning>()
    ensures alone { AloneBySettle M.answer }
    ensures passed { PassedBySettle M.answer }
    ensures passes { PassesBySettle M.answer }
{}

/// An application by itself: the steps that it has taken and those that are left are its total and those that its events granted, which are at
/// most its refill for each of them.
pub fn used_and_left<M: AliasMeaning>()
    ensures { UsedAndLeft M.answer }
{}

/// Applications side by side take at most the sum of their totals and of what their events granted.
pub fn all_within<M: AliasMeaning>()
    ensures { AllWithin M.answer }
{}

/// An application that nothing refills, as each of a session of the first format is, is by itself what it was before there were refills: an
/// event grants it nothing.
pub fn alone_without_refills<M: AliasMeaning>()
    ensures { AloneWithoutRefills M.answer }
{}

/// Lines in range route events in range to each application, where the rectangles that applications came with are: buttons from 1 to 5, places from -32,767 to
/// 65,535 from where a rectangle begins, and sizes up to 32,767.
pub fn routes_in_range()
    ensures { RoutesInRange }
{}

/// An application by itself, to which such events are routed, and whose rectangle has such a size: its windows lie near one another as long as it runs, and
/// each event tells its places and its button.
pub fn alone_in_range<M: AliasMeaning>()
    ensures { AloneInRange M.answer }
{}
