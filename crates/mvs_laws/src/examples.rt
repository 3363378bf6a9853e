//! Small laws that show what the definitions mean: each function has an empty body, and its contract is the law.

ghost use Rattle.mvs_laws.specs.Examples.{
  AcrossPages,
  BoundaryEdges,
  AboveOnATie,
  ReleasesJoin,
  PartsReleased,
  GrantKeepsPages,
  ReleaseKeepsPages,
  TakenBack,
  GivesAndShares,
  SharersKeep,
  SmallPart,
};
ghost use Rattle.mvs_model.specs.ReadingLaws.{FaultExamples, MoreFaults, LineExamples, SpellingExamples};

/// A place across an own page and a free one is open until another subpool holds a doubleword of either.
pub fn across_pages()
    ensures { AcrossPages }
{}

/// A containing boundary admits an area of its own length and none that is a byte longer; no place begins on a
/// boundary of 2 to the 31st.
pub fn boundary_edges()
    ensures { BoundaryEdges }
{}

/// Above is preferred where the lengths are equal, and a longer place below is preferred to it.
pub fn above_on_a_tie()
    ensures { AboveOnATie }
{}

/// Two places that touch are released as one.
pub fn releases_join()
    ensures { ReleasesJoin }
{}

/// Each whole part of an area may be released.
pub fn parts_released()
    ensures { PartsReleased }
{}

/// A grant keeps that each page is of one subpool.
pub fn grant_keeps_pages()
    ensures { GrantKeepsPages }
{}

/// A release keeps that each page is of one subpool.
pub fn release_keeps_pages()
    ensures { ReleaseKeepsPages }
{}

/// A grant and its release leave the storage as it was.
pub fn taken_back()
    ensures { TakenBack }
{}

/// What ATTACH gives the subtask owns; what it shares both have.
pub fn gives_and_shares()
    ensures { GivesAndShares }
{}

/// When a task ends, the others keep what it only shared and lose what it owned.
pub fn sharers_keep()
    ensures { SharersKeep }
{}

/// A part of two cells of 12 bytes has 48 bytes, and its cells begin at 24 and 36.
pub fn small_part()
    ensures { SmallPart }
{}

/// A line for each fault that an operand or an operation can have, after a REGION statement.
pub fn fault_examples()
    ensures { FaultExamples }
{}

/// Lines at the edges of what is a fault.
pub fn more_faults()
    ensures { MoreFaults }
{}

/// Lines without a fault, and what they say.
pub fn line_examples()
    ensures { LineExamples }
{}

/// Spellings of GETMAIN RU at its limits are read.
pub fn spelling_examples()
    ensures { SpellingExamples }
{}
