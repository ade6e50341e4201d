//! Laws of regions, of journals and of the bound on steps: each is the contract of a function with an empty body.

ghost use Rattle.pg_board.specs.Laws.{WinnersAreDisjoint, OrderHasNoEffect, StepsAreFew};

/// If claims were dominions at some time, the order of their posts has no effect on the regions.
pub fn order()
    ensures { OrderHasNoEffect }
{}

/// No vertex is won by both players.
pub fn disjoint()
    ensures { WinnersAreDisjoint }
{}

/// The most steps of the recursion are exponential in the number of vertices, and polynomial in it for each number of priorities.
pub fn few_steps()
    ensures { StepsAreFew }
{}
