//! Laws of the forms.
ghost use Rattle.line_forms.specs.BothWays.{FittingValuesAreRead, WhatIsReadFits};

/// The line of values that fit a form is made of fields, has that form, and its parts are read as these values.
pub fn fitting_values_are_read()
    ensures { FittingValuesAreRead }
{}

/// What a line is read as fits one of the forms that it has to have, which it has.
pub fn what_is_read_fits()
    ensures { WhatIsReadFits }
{}
