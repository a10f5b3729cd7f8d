//! What a source names is lawful, and its bodies are lists.
ghost use Rattle.std.specs.Prelude.{ℕ, List};
ghost use Rattle.dt_text.specs.declared.lexeme.language.Language.{Language};
ghost use Rattle.dt_source.specs.TreeMeaning.Syntax.{Meaning};
ghost use Rattle.dt_source.specs.Parse.{Says};
ghost use Rattle.dt_source.specs.Lawful.{IsLawful};
ghost use Rattle.dt_source.specs.BodyLaws.{StatementsOfABody, BodyOfItsStatements, BodiesAreLawfulByStatements};

/// What a text says is lawful: its names and paths are those of trees, and its labels are labels. So a tree is built of
/// them without a test.
pub fn says_lawful()
    ensures { (language : Language) (text : List ℕ) (m : Meaning) → Says language text m → IsLawful m }
{}

/// A body is the list of its statements, and lawful where each of them is.
pub fn bodies_are_lists()
    ensures there { StatementsOfABody }
    ensures back { BodyOfItsStatements }
    ensures lawful { BodiesAreLawfulByStatements }
{}
