// What is proved of the definitions alone. The functions are empty: the contract of each is a law.

ghost use Rattle.pb_grades.specs.Laws.{ComponentFormLaw, ComponentLaw, ErrorLaw, FirstOverLaw};

/// The component graph, by what each of its streams is.
pub fn component_law()
    ensures { ComponentLaw }
{}

/// The component graph is a process graph within its limits.
pub fn component_form_law()
    ensures { ComponentFormLaw }
{}

/// The stream that is named as over the limits is the first one to be measured that is over them.
pub fn first_over_law()
    ensures { FirstOverLaw }
{}

/// What the variance of the grams covers: the error of the grade and the rounding.
pub fn error_law()
    ensures { ErrorLaw }
{}
