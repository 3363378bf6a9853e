//! Laws of runs with reports of leaks: each function does nothing, and its contract is the law.

ghost use Rattle.area_history.specs.Anywhere.{LocAnyServes, LocAnyServesPools};
ghost use Rattle.area_history.specs.Histories.{HistoriesArePrintings};
ghost use Rattle.area_history.specs.Reporting.{ExplainedLeaksArePrintings, LeaksArePrintings};

use mvs_job::laws::no_line_is_starred;

/// Without its lines that begin with an asterisk, a printing with reports of leaks is the printing of a run.
pub fn leaks_are_printings()
    ensures { LeaksArePrintings }
{
    no_line_is_starred();
}

/// So is one with explanations.
pub fn explained_leaks_are_printings()
    ensures { ExplainedLeaksArePrintings }
{
    no_line_is_starred();
}

/// So is one with explanations and what the history says.
pub fn histories_are_printings()
    ensures { HistoriesArePrintings }
{
    no_line_is_starred();
}

/// If a length is found for an area with LOC=ANY, the request is not refused with LOC=ANY.
pub fn loc_any_serves()
    ensures { LocAnyServes }
{}

/// A cell pool for which a length is found with LOC=ANY is not refused so.
pub fn loc_any_serves_pools()
    ensures { LocAnyServesPools }
{}
