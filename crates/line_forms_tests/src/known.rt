//! Names that are known, for the tests.
use line_forms::{Known, Set};
use net_units::Name;

/// `east` and `west` are known in each set, by the numbers 3 and 4, and they are a pair in this order.
pub struct TwoNames;

impl Known for TwoNames {
    ghost use Rattle.line_forms_tests.specs.TwoNames.{two_names};

    ghost names = { λ _. two_names };

    fn number_of(&self, _set: Set, name: &Name) -> Option<usize> {
        if name.as_bytes() == b"east".as_slice() {
            Some(3)
        } else if name.as_bytes() == b"west".as_slice() {
            Some(4)
        } else {
            None
        }
    }

    fn are_paired(&self, first: usize, second: usize) -> bool {
        first == 3 && second == 4
    }
}
