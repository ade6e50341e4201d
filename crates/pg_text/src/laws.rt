//! Laws on texts and solutions alone, each the contract of a function with an empty body. Worked examples are
//! `crate::proofs::laws::Examples::written_five` and `written_two` (written texts), `two_solved` (a solution), and `five_fails` (winners and
//! choices that are none).

ghost use Rattle.pg_text.specs.Laws.{OneSpelling, WrittenGameReads, WrittenSolutionReads, WrittenGameIsText, WrittenSolutionIsText, TokensOrLexical};
ghost use Rattle.pg_text.specs.Laws.{TextOrFault, OneFault, NoGameWantsMemory, SolutionTextOrFault, OneSolutionFault, SolutionHasNoFault};

/// A written text reads back, and as nothing else. A text spells at most one list of tokens. The written text of a game
/// spells one game text, and this describes that game and no other. The same holds for winners and choices. Identifiers and
/// priorities may have any size (`crate::proofs::laws::Examples::written_wide`). Within the limits of games, written texts have no fault.
pub fn written()
    ensures tokens { OneSpelling }
    ensures games { WrittenGameReads }
    ensures solutions { WrittenSolutionReads }
    ensures game_texts { WrittenGameIsText }
    ensures solution_texts { WrittenSolutionIsText }
{}

/// A text has one result: it spells tokens or has a lexical fault; a text of a game has no fault, and another has at most one;
/// and the same holds for solution texts. Refused memory is no result, and is never wrapped in `Game`.
pub fn one_answer()
    ensures tokens { TokensOrLexical }
    ensures game { TextOrFault }
    ensures fault { OneFault }
    ensures memory { NoGameWantsMemory }
    ensures solution { SolutionTextOrFault }
    ensures solution_fault { OneSolutionFault }
{}

/// A solution has no fault: winners and choices are no solution if a choice is missing or no successor, if an edge leaves, or
/// if a closed walk is bad.
pub fn no_fault()
    ensures { SolutionHasNoFault }
{}
