// What is proved of the definitions alone. The functions are empty: the contract of each is a law.

ghost use Rattle.pb_classify.specs.Laws.{SomeClassificationLaw, OneClassificationLaw, AlikeLaw};
ghost use Rattle.pb_classify.specs.PointLaws.{PointsLaw};

/// Each process graph has a classification.
pub fn some_classification_law()
    ensures { SomeClassificationLaw }
{}

/// A graph has only one classification, so a text made from it is determined by the graph.
pub fn one_classification_law()
    ensures { OneClassificationLaw }
{}

/// Graphs that are alike, and so differ only in values and variances, have the same classification.
pub fn alike_law()
    ensures { AlikeLaw }
{}

/// The ends of a held unmeasured stream aren't joined by other unmeasured streams exactly when both points of its lower end are entry
/// numbers of nodes below that end.
pub fn points_law()
    ensures { PointsLaw }
{}
