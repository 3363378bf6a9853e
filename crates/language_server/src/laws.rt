//! Laws: the functions do nothing, and their contracts are the laws.

ghost use Rattle.language_server.specs.Actions.{WritingsAreInTexts};
ghost use Rattle.language_server.specs.Fixes.{FixesAreInTexts};
ghost use Rattle.language_server.specs.Positions.{PositionsHavePlaces};
ghost use Rattle.language_server.specs.References.{ReferencesAreSame};
ghost use Rattle.language_server.specs.Spans.{LinesAreInTexts};
ghost use Rattle.language_server.specs.Symbols.{SymbolsAreInTexts};

/// The position of a place between characters means this place.
pub fn positions_have_places()
    ensures { PositionsHavePlaces }
{}

/// The lines of a text begin and end in it.
pub fn lines_are_in_texts()
    ensures { LinesAreInTexts }
{}

/// References are bytes of the text, and those of the name at the place.
pub fn references_are_same()
    ensures { ReferencesAreSame }
{}

/// The name and the lines of each symbol are in the text.
pub fn symbols_are_in_texts()
    ensures { SymbolsAreInTexts }
{}

/// The actions that write answers change bytes of the text.
pub fn writings_are_in_texts()
    ensures { WritingsAreInTexts }
{}

/// The actions that mend what diagnostics report change bytes of the text.
pub fn fixes_are_in_texts()
    ensures { FixesAreInTexts }
{}
