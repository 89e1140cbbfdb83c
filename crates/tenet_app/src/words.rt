//! What the words after the program's name ask for.
ghost use Rattle.std.specs.Prelude.{◌≡◌, ◌≤◌, IfSome, map, string_bytes};
ghost use Rattle.tenet_app.specs.Auditing.{audit_words};
ghost use Rattle.tenet_app.specs.Making.{both_of, make_words, number_from};
ghost use Rattle.tenet_app.specs.Playing.{are_both, is_this_word, play_words};
ghost use Rattle.tenet_app.specs.Racing.{are_both_to_race, race_words};

use scenario_reader::values::number;

// The largest number that a load is made from.
const MOST_NUMBER: u64 = 2_147_483_647;

// The most requests of a load.
const MOST_SIZE: u64 = 1_024;

// Whether the words ask to play, and if so, whether they ask for the table of packets.
pub(crate) fn to_play(words: &[String]) -> Option<bool>
    ensures { result ≡ play_words (map string_bytes words.now) }
{
    match words {
        [word] => {
            if is_word(word.as_str(), "play") {
                Some(false)
            } else {
                None
            }
        }
        [first, second] => {
            let (first, second) = (first.as_str(), second.as_str());
            if are_both(first, second) || are_both(second, first) {
                Some(true)
            } else {
                None
            }
        }
        _ => None,
    }
}

fn are_both(first: &str, second: &str) -> bool
    ensures { result ≡ are_both first.now second.now }
{
    is_word(first, "play") && is_word(second, "--packets")
}

// Whether the words ask to race, and if so, whether they ask for the table of packets.
pub(crate) fn to_race(words: &[String]) -> Option<bool>
    ensures { result ≡ race_words (map string_bytes words.now) }
{
    match words {
        [word] => {
            if is_word(word.as_str(), "race") {
                Some(false)
            } else {
                None
            }
        }
        [first, second] => {
            let (first, second) = (first.as_str(), second.as_str());
            if are_both_to_race(first, second) || are_both_to_race(second, first) {
                Some(true)
            } else {
                None
            }
        }
        _ => None,
    }
}

fn are_both_to_race(first: &str, second: &str) -> bool
    ensures { result ≡ are_both_to_race first.now second.now }
{
    is_word(first, "race") && is_word(second, "--packets")
}

// Whether the words ask to audit.
pub(crate) fn to_audit(words: &[String]) -> bool
    ensures { result ≡ audit_words (map string_bytes words.now) }
{
    match words {
        [word] => is_word(word.as_str(), "audit"),
        _ => false,
    }
}

// The number and the size of the load that the words ask to make, if they do.
pub(crate) fn to_make(words: &[String]) -> Option<(u32, u32)>
    ensures made { result ≡ make_words (map string_bytes words.now) }
    ensures range { IfSome result (λ load. (load.0 ≤ 2147483647) × ((1 ≤ load.1) × (load.1 ≤ 1024))) }
{
    match words {
        [word, number, size] => {
            if is_word(word.as_str(), "make") {
                load_of(number.as_str(), size.as_str())
            } else {
                None
            }
        }
        _ => None,
    }
}

// The load of these two words.
fn load_of(number: &str, size: &str) -> Option<(u32, u32)>
    ensures both { result ≡ both_of (number_from 0 2147483647 number.now) (number_from 1 1024 size.now) }
    ensures range { IfSome result (λ load. (load.0 ≤ 2147483647) × ((1 ≤ load.1) × (load.1 ≤ 1024))) }
{
    let number = number_from(number, 0, MOST_NUMBER)?;
    let size = number_from(size, 1, MOST_SIZE)?;
    Some((number as u32, size as u32))
}

// The number within these bounds that a word is.
pub(crate) fn number_from(word: &str, low: u64, high: u64) -> Option<u64>
    ensures is { result ≡ number_from low high word.now }
    ensures range { IfSome result (λ value. (low ≤ value) × (value ≤ high)) }
{
    number(word.as_bytes(), low, high).ok()
}

pub(crate) fn is_word(word: &str, text: &str) -> bool
    ensures { result ≡ is_this_word text.now word.now }
{
    word == text
}
