//! Laws of the machine, over every run: each function has an empty body, and its contract is the law.

ghost use Rattle.mvs_laws.specs.Laws.{PagesHaveOneSubpool, NeverStuck, PartsApart, StaysWellFormed, EachIsPrinted, SameFault};
ghost use Rattle.mvs_laws.specs.Refusals.{AttemptsAreSteps, EachOneRefusal, ReasonsDecideReplies, RefusalsDecideReplies};
ghost use Rattle.mvs_laws.specs.LeavesUntouched.{BytesStay, GrantsSpare};
ghost use Rattle.mvs_laws.specs.Tidy.{OneLabelRun, PlacesAreNotPrinted, PlacesDoNotMatter, TidyRun, TidyStep, TidyText};
ghost use Rattle.mvs_laws.specs.TidyExamples.{BusyReturn, GivenEnds, MovesInFull, MovesOverlap};
ghost use Rattle.mvs_model.specs.Determined.{OneStep, NothingPicked, ListEitherWay, HasPlaces, PlacesDetermine, HintsDecide, TakingObeys};
ghost use Rattle.mvs_model.specs.ReadingLaws.{InRanges, OneReading, OnlyWords};
ghost use Rattle.mvs_model.specs.Spelling.{AllowedIsRead, CutApart, EachIsWritten, InAnyOrder};
ghost use Rattle.mvs_model.specs.Spellings.{EachIsSpelled};

/// In every state of a run each page is of one subpool.
pub fn page_rule()
    ensures { PagesHaveOneSubpool }
{}

/// In every state of a run each request has a step.
pub fn never_stuck()
    ensures { NeverStuck }
{}

/// In every state of a run the parts of pools do not overlap, and there are bytes exactly where they can be accessed.
pub fn apart()
    ensures { PartsApart }
{}

/// In every state of a run each page belongs to one subpool, the parts of pools do not overlap, and everything held has an owner.
pub fn well_formed()
    ensures { StaysWellFormed }
{}

/// A byte that may be read stays as it is while no PUT or MOVE writes it, nothing releases it, and the task that owns
/// what holds it does not end.
pub fn bytes_stay()
    ensures { BytesStay }
{}

/// An obtain that is granted is a request that neither writes nor releases any byte, and ends no owner.
pub fn grants_spare()
    ensures { GrantsSpare }
{}

/// A reason determines the reply: its refusal has its consequence. For a member of a list this holds where that is refused.
pub fn reasons_decide_replies()
    ensures { ReasonsDecideReplies }
{}

/// A request that is for no list is refused in one way, and is then not done.
pub fn one_refusal()
    ensures { EachOneRefusal }
{}

/// The refusal of a request that is not for a list determines its reply: it has the consequence of the refusal. If the request
/// passes all causes, it is executed.
pub fn refusals_decide_replies()
    ensures { RefusalsDecideReplies }
{}

/// An attempt that is done is a step, and one that is refused is a step once it is settled.
pub fn attempts_are_steps()
    ensures { AttemptsAreSteps }
{}

/// Each script has a printing.
pub fn each_is_printed()
    ensures { EachIsPrinted }
{}

/// Whether, where and how a script has a fault depends only on its lines.
pub fn same_fault()
    ensures { SameFault }
{}

/// From a state of a run and labels that are linked, a tidy statement that is granted in full is answered the same on
/// both machines, and leaves them linked.
pub fn tidy_step()
    ensures { TidyStep }
{}

/// Each run of a tidy script that is granted in full has the events of the label machine, wherever its areas are, and so prints
/// what that prints.
pub fn tidy_text()
    ensures answers { TidyRun }
    ensures text { TidyText }
{}

/// The label machine answers a script in one way.
pub fn one_label_run()
    ensures { OneLabelRun }
{}

/// Two runs of a tidy script that are granted in full have the same events, wherever their areas are, and so print the same.
pub fn places_do_not_matter()
    ensures answers { PlacesDoNotMatter }
    ensures text { PlacesAreNotPrinted }
{}

/// The addresses that a step picks determine its reply and the state that it leaves.
pub fn one_step()
    ensures { OneStep }
{}

/// If a request that is not for a list may be refused, it is not granted, wherever places are.
pub fn nothing_picked()
    ensures { NothingPicked }
{}

/// A request for a list may be granted and may be refused.
pub fn list_either_way()
    ensures { ListEitherWay }
{}

/// Each run is one that picks some addresses, and what picks addresses is a run.
pub fn has_places()
    ensures { HasPlaces }
{}

/// A run is determined by the addresses that its lines pick.
pub fn places_determine()
    ensures { PlacesDetermine }
{}

/// A run that obeys the addresses of another one, which refuses no list that could be granted, has the same events.
pub fn hints_decide()
    ensures { HintsDecide }
{}

/// A request that uses its hints obeys.
pub fn taking_obeys()
    ensures { TakingObeys }
{}

/// A script in which a task returns with a subtask is tidy.
pub fn busy_return()
    ensures { BusyReturn }
{}

/// A script that moves bytes within an area is tidy.
pub fn moves_overlap()
    ensures { MovesOverlap }
{}

/// That script has a run that is granted in full.
pub fn moves_in_full()
    ensures { MovesInFull }
{}

/// A script in which a given subpool ends while a sibling shares it is tidy.
pub fn given_ends()
    ensures { GivenEnds }
{}

/// Each line is read or has a fault, not both, and says one thing or has one fault.
pub fn one_reading()
    ensures { OneReading }
{}

/// What a line that is read says is in its ranges; the first statement is REGION.
pub fn in_ranges()
    ensures { InRanges }
{}

/// More blanks between the words of a line and another remark change nothing.
pub fn only_words()
    ensures { OnlyWords }
{}

/// A line that is put together from words is cut into them again.
pub fn cut_apart()
    ensures { CutApart }
{}

/// What a row of the table allows can be written, its keywords in any order, and is read as what the row means.
pub fn allowed_is_read()
    ensures { AllowedIsRead }
{}

/// Each value in range has a text that fits its kind and says the value.
pub fn each_is_written()
    ensures { EachIsWritten }
{}

/// Each statement is written as the table of the script language says, and is read as that statement.
pub fn each_is_spelled()
    ensures { EachIsSpelled }
{}

/// Two adjacent keywords of a line can be exchanged.
pub fn in_any_order()
    ensures { InAnyOrder }
{}
