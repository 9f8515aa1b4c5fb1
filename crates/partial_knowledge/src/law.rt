//! Laws about what getSets and embedded scans know. The functions have no code: their contracts hold of the
//! definitions by which the machines' own contracts are stated.

ghost use Rattle.partial_knowledge.specs.Sets.{GetSetsKnow};
ghost use Rattle.partial_knowledge.specs.Scans.{EmbeddedScansKnow};

/// In lawful words, what a getSet knows by its kept answers leads on from stage to stage. At its end it has
/// found each announcement of a port that joined before it.
pub fn getsets_know()
    ensures { GetSetsKnow }
{}

/// In lawful words, what an embedded scan knows by its kept answers leads on from stage to stage. At its
/// end it has the values of its positions after one prefix of the history that is no shorter than the
/// history was at its first step, or the view of a record that was begun since then.
pub fn embedded_scans_know()
    ensures { EmbeddedScansKnow }
{}
