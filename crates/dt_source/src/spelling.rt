//! What is read of a source, and what its lexemes spell.
ghost use Rattle.dt_source.specs.Laws.{SourcesAreSpelled, SourcesAreRead, OneSpelling};

/// Reading and the grammar agree: what is read of a source is spelled so, what is spelled so is read, and lexemes
/// spell at most one source.
pub fn reads_sources()
    ensures read { SourcesAreSpelled }
    ensures spelled { SourcesAreRead }
    ensures one { OneSpelling }
{}
