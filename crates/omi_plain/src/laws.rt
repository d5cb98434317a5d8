//! Laws of the definitions. Each is a function that does nothing, and says its law in `specs/`.

ghost use Rattle.omi_plain.specs.StatementLaws.{VariablesAreSetAsRowsSay};
ghost use Rattle.omi_plain.specs.StepLaws.{PlainStepsFit, PlainStepsStayPlaced};

/// A statement sets the variable that the machine's row of it sets, to the same word.
pub fn variables_are_set_as_rows_say()
    ensures { VariablesAreSetAsRowsSay }
{}

/// A step of this crate leaves an actor that fits the program and is placed in the layout, whatever word it found.
pub fn plain_steps_fit()
    ensures fits { PlainStepsFit }
    ensures placed { PlainStepsStayPlaced }
{}
