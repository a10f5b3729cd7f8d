//! What holds of blocks whatever the marks are.
ghost use Rattle.dtman_arena_c.specs.Laws.{BlocksAreApart, OthersStay};

/// No granule is in two blocks.
pub fn blocks_are_apart()
    ensures { BlocksAreApart }
{}

/// What a call of one block changes, it leaves of all others.
pub fn others_stay()
    ensures { OthersStay }
{}
