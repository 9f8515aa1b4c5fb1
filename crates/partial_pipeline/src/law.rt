//! Laws of a pipeline over plain data. The functions have no code: their contracts hold of the definitions.

ghost use Rattle.partial_pipeline.specs.Pipeline.{CountsNeverFall, CountsStayOrdered};

/// At each length of a pipeline's one history over all epochs, each stage's count is at most that of the stage before it.
pub fn counts_stay_ordered()
    ensures { CountsStayOrdered }
{}

/// From one length of that history to a later one, whatever epochs lie between, no stage's count falls.
pub fn counts_never_fall()
    ensures { CountsNeverFall }
{}
