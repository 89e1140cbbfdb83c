//! Help, and what is said of wrong words, by the table of words.
use crate::words::{BadWords, CHOICES, QUESTIONS, Question, entry_of, word_at};
use std::alloc::{AllocError, Global};

/// The help on a question, or on all.
pub fn help_text(alloc: Global, question: Option<Question>) -> Result<String, AllocError> {
    let mut text = String::new(alloc);
    match question {
        None => {
            text.push_str("ask puts a designer's question to a network.\n\n")?;
            for entry in &QUESTIONS {
                push_question(alloc, &mut text, entry.question)?;
            }
        }
        Some(question) => push_question(alloc, &mut text, question)?,
    }
    push_rest(&mut text)?;
    Ok(text)
}

// Adds a question.
fn push_question(alloc: Global, text: &mut String, question: Question) -> Result<(), AllocError> {
    let entry = entry_of(question);
    let (word, operands, answers, no) = (entry.word, entry.operands, entry.answers, entry.no);
    let line = format!(in alloc; "  ask {word} {operands}\n      {answers}.\n      A no: {no}.\n")?;
    text.push_str(line.as_str())
}

// Adds the options and what holds of all questions.
fn push_rest(text: &mut String) -> Result<(), AllocError> {
    text.push('\n')?;
    for choice in &CHOICES {
        text.push_str("  ")?;
        text.push_str(choice.word)?;
        push_spaces(text, 11usize.saturating_sub(choice.word.len()))?;
        text.push_str(choice.does)?;
        text.push('\n')?;
    }
    text.push_str(REST)
}

// What holds of all questions.
const REST: &str = "
FILE is a scenario or a design; - is standard input. All requests are asked for in the order of the file, and none is sent on, moved or
closed, so all channels that are accepted are held at once. Where the file has a schedule, table, fit, least and where ask each request
where its own setup begins there, among the channels that are held then, and fit tries its copies once the setups of the requests that it
names have ended; links and batch use no schedule. Times stand beside ticks where a scenario has a note like # tick 10 us, and for each design.

Exit status: 0 yes, 1 no, 2 wrong words, 3 a file can't be read or written, 4 out of memory, 5 a line of the file is refused.
";

fn push_spaces(text: &mut String, count: usize) -> Result<(), AllocError> {
    for _ in 0..count {
        text.push(' ')?;
    }
    Ok(())
}

/// What is said of wrong words.
pub fn wrong_words(alloc: Global, words: &[String], bad: BadWords) -> Result<String, AllocError> {
    match bad {
        BadWords::Memory => Err(AllocError),
        BadWords::Missing => {
            format!(in alloc; "ask: a question and a file are wanted; ask --help shows them\n")
        }
        BadWords::Question(place) => {
            let word = word_at(words, place);
            format!(in alloc; "ask: {word} is no question; ask --help shows them\n")
        }
        BadWords::Option(place) => {
            let word = word_at(words, place);
            format!(in alloc; "ask: {word} is no option; ask --help shows them\n")
        }
        BadWords::Number(place) => {
            let word = word_at(words, place);
            format!(in alloc; "ask: {word} wants a number from 1 to 64 behind it\n")
        }
        BadWords::Operands(question) => {
            let entry = entry_of(question);
            let (word, operands) = (entry.word, entry.operands);
            format!(in alloc; "ask: wanted is ask {word} {operands}; ask --help shows more\n")
        }
    }
}
