//! Laws about whole embedded scans. The functions have no code: their contracts hold of the definitions
//! by which the machine's own contracts are stated.

ghost use Rattle.partial_embedded.specs.Runs.{EndsInEqualCollectsOrAThirdRecord, FinishedScansEndWell, LoadsItsPositionsAlone, MakesFewCollects};

/// Each step of an embedded scan is a load, and it loads no component word but those of its positions.
pub fn loads_its_positions_alone()
    ensures { LoadsItsPositionsAlone }
{}

/// An embedded scan of r positions makes at most r + 2 collects, and at most `r (r + 2) + 2 m + 2` steps.
pub fn makes_few_collects()
    ensures { MakesFewCollects }
{}

/// An embedded scan loads values only when its last two collects are equal. It takes a view only of a
/// record that is the third one at some position.
pub fn ends_in_equal_collects_or_a_third_record()
    ensures { EndsInEqualCollectsOrAThirdRecord }
{}

/// A finished embedded scan either has the values that it loaded after two equal collects, or has taken
/// the view of the record that was the third one at some position, at which it left its collect at once.
pub fn finished_scans_end_well()
    ensures { FinishedScansEndWell }
{}
