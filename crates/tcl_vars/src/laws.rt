//! Where links lead, without a count of them. The function does nothing: its contract is the law.
ghost use Rattle.tcl_vars.specs.Links.{AllLinksDescend, LinksLead, OnlyLinksLead};

/// A place leads to itself where its variable is no link, and else where the place does that the link names (upvar(n)). Nothing else meets that equation,
/// where links lead to earlier frames, as those of every store do that a `Scopes` holds.
pub fn links_lead()
    ensures equation { LinksLead }
    ensures only { OnlyLinksLead }
    ensures earlier { AllLinksDescend }
{}
