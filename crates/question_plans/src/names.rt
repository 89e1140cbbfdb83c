//! Names for what a question adds to a plan.
use call_script::Plan;
use net_units::Name;

// A digit for which no caller and no request of the plan has a name that begins with `ask`, the digit and `_`; 9 where each has one.
pub(crate) fn free_start(plan: &Plan) -> u8 {
    for digit in b'0'..b'9' {
        if !is_taken(plan, digit) {
            return digit;
        }
    }
    b'9'
}

// Whether a caller or a request has a name that begins so.
fn is_taken(plan: &Plan, digit: u8) -> bool {
    plan.callers()
        .iter()
        .any(|caller| begins_so(&caller.name, digit))
        || plan
            .requests()
            .iter()
            .any(|entry| begins_so(&entry.name, digit))
}

// Whether the name begins with `ask`, the digit and `_`.
fn begins_so(name: &Name, digit: u8) -> bool {
    match name.as_bytes() {
        [b'a', b's', b'k', at, b'_', ..] => *at == digit,
        _ => false,
    }
}

// The name that begins so, and goes on with a number of up to five digits.
pub(crate) fn name_after(digit: u8, number: usize) -> Option<Name> {
    let bytes = [
        b'a',
        b's',
        b'k',
        digit,
        b'_',
        digit_of(number / 10_000),
        digit_of(number / 1_000),
        digit_of(number / 100),
        digit_of(number / 10),
        digit_of(number),
    ];
    Name::new(bytes.as_slice())
}

// The last digit of a number.
fn digit_of(number: usize) -> u8 {
    b'0' + (number % 10) as u8
}
