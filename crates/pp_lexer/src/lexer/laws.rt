//! Laws of the character phases and of the items, over their definitions alone: each function's contract states one,
//! for every source. The bodies do nothing.

ghost use Rattle.pp_lexer.specs.ItemLaws.{TokensLieWithin, TokensHaveLines, ItemsAreFinite, PlacesAreOfItems};
ghost use Rattle.pp_lexer.specs.PhaseLaws.{PairsCountOnce, LinesCountNewlines, SourcesNeverFall, SourcesAreTiled};
ghost use Rattle.pp_lexer.specs.PhaseLaws.{SourcesShorten};
ghost use Rattle.pp_lexer.specs.Respelling.{ValuesAreSpelled, SpellingsAreReadBack};

/// Each newline pair counts once, a line is one more than the newlines before it, and line numbers never decrease along
/// the characters of any phase.
pub fn line_ends()
    ensures pairs { PairsCountOnce }
    ensures counted { LinesCountNewlines }
    ensures in_order { SourcesNeverFall }
{}

/// The stretches of each phase's characters follow one another from the source's first byte on, each with room for its
/// character. They reach its last byte, unless a continuation comes last.
pub fn stretches()
    ensures { SourcesAreTiled }
{}

/// No phase has more characters than the one before it, and the first no more than the source has
/// bytes.
pub fn phase_lengths()
    ensures { SourcesShorten }
{}

/// Each token of a source starts at or before its end, and ends within the source. Its line is at least 1, and at most
/// one more than the source has bytes. A source has at most one item for each byte, and one more. Each item, also an
/// error, has one place, and that of a token is its location.
pub fn places()
    ensures within { TokensLieWithin }
    ensures lines { TokensHaveLines }
    ensures finite { ItemsAreFinite }
    ensures of_items { PlacesAreOfItems }
{}

/// Each token of a source is a newline, a `#`, or a value that can be spelled.
pub fn spelled_values()
    ensures { ValuesAreSpelled }
{}

/// Values that can be spelled, written with one space between each two, are read back as the same
/// values in the same order, with a newline after them if there are any, and without an error.
pub fn respelled()
    ensures { SpellingsAreReadBack }
{}
