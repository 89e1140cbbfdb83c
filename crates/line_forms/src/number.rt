//! The numbers in a line's fields.
ghost use Rattle.std.specs.Prelude.{◌≡◌, ◌≤◌, true, length};
ghost use Rattle.line_forms.specs.Decimal.{is_number, value_of};
ghost use Rattle.std.specs.Str.{all_ascii_digits};

/// Whether a field is a number: 1 to 18 digits, with no leading 0 but for the number 0 itself.
pub fn is_number(field: &[u8]) -> bool
    ensures { result ≡ is_number field.now }
{
    are_digits(field)
        && !field.is_empty()
        && field.len() <= 18
        && (field.len() == 1 || field[0] != b'0')
}

/// The number that 1 to 18 digits stand for.
pub fn value_of(digits: &[u8]) -> u64
    requires digits { all_ascii_digits digits.now ≡ true }
    requires short { length digits.now ≤ 18 }
    ensures { result ≡ value_of digits.now }
{
    let mut value = 0;
    for digit in digits {
        value = value * 10 + u64::from(*digit - b'0');
    }
    value
}

fn are_digits(field: &[u8]) -> bool
    ensures { result ≡ all_ascii_digits field.now }
{
    field.iter().all(|byte| byte.is_ascii_digit())
}
