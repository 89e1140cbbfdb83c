//! The words that the program knows: one table, from which its help and what it says of wrong words are made, too.
use answer_grids::Format;
use std::alloc::{AllocError, AllocFailed, Global};

/// A question.
#[derive(Clone, Copy, Debug, PartialEq, Eq)]
pub enum Question {
    Table,
    Links,
    Fit,
    Least,
    Where,
    Batch,
    Channels,
    Audit,
    Schedule,
    Page,
    Picture,
}

/// How many words may stand at a place, from the fewest to the most.
#[derive(Clone, Copy, Debug, PartialEq, Eq)]
pub struct Count {
    pub fewest: usize,
    pub most: usize,
}

// So many words, no fewer and no more.
const NONE: Count = Count { fewest: 0, most: 0 };

const ONE: Count = Count { fewest: 1, most: 1 };

/// A question in the table.
#[derive(Clone, Copy)]
pub struct Entry {
    pub question: Question,
    /// Its word.
    pub word: &'static str,
    /// What follows it, as help shows it.
    pub operands: &'static str,
    /// How many words stand between it and the file.
    pub before: Count,
    /// How many words stand behind the file. Before and behind it, one of the two is a fixed number.
    pub after: Count,
    /// How many of the words behind the file are files, too, the first of them.
    pub more_files: usize,
    /// What it answers.
    pub answers: &'static str,
    /// When that is a no.
    pub no: &'static str,
}

/// All questions.
pub const QUESTIONS: [Entry; 11] = [
    Entry {
        question: Question::Table,
        word: "table",
        operands: "FILE",
        before: NONE,
        after: NONE,
        more_files: 0,
        answers: "each request: what its hops offer and give it, what it was promised and what it could have",
        no: "a request isn't accepted",
    },
    Entry {
        question: Question::Links,
        word: "links",
        operands: "FILE",
        before: NONE,
        after: NONE,
        more_files: 0,
        answers: "each link, and each group of a link that is split: how full it is at each level, in the long run, and its buffer",
        no: "a request isn't accepted",
    },
    Entry {
        question: Question::Fit,
        word: "fit",
        operands: "NAME.. FILE",
        before: Count { fewest: 1, most: 8 },
        after: NONE,
        more_files: 0,
        answers: "how many more like these requests, as many of each, there is room for, and what stops the next",
        no: "there is room for none",
    },
    Entry {
        question: Question::Least,
        word: "least",
        operands: "NAME FILE",
        before: ONE,
        after: NONE,
        more_files: 0,
        answers: "the least delay and the least jitter with which the request would be accepted",
        no: "the request isn't accepted as it stands",
    },
    Entry {
        question: Question::Where,
        word: "where",
        operands: "NAME FILE",
        before: ONE,
        after: NONE,
        more_files: 0,
        answers: "what each link of its route offers the request and gives it, and which link is tight",
        no: "the request isn't accepted",
    },
    Entry {
        question: Question::Batch,
        word: "batch",
        operands: "FILE CHANGE..",
        before: NONE,
        after: Count { fewest: 1, most: 8 },
        more_files: 0,
        answers: "which requests are accepted in each variant of the file, with other numbers as in L34.D1=20..26",
        no: "no variant accepts all its requests",
    },
    Entry {
        question: Question::Channels,
        word: "channels",
        operands: "FILE",
        before: NONE,
        after: NONE,
        more_files: 0,
        answers: "each request once the file is played: what its source did, what was promised, and the worst packet",
        no: "a request isn't accepted",
    },
    Entry {
        question: Question::Audit,
        word: "audit",
        operands: "FILE TABLE",
        before: NONE,
        after: ONE,
        more_files: 1,
        answers: "the rows of a table channel,packet,sent,arrived that break what their channels are promised",
        no: "there is such a row",
    },
    Entry {
        question: Question::Schedule,
        word: "schedule",
        operands: "FILE",
        before: NONE,
        after: NONE,
        more_files: 0,
        answers: "the scenario with a schedule in which each operation comes at its tick: of a scenario with lines at TIME OPERATION, or of a design",
        no: "never",
    },
    Entry {
        question: Question::Page,
        word: "page",
        operands: "FILE",
        before: NONE,
        after: NONE,
        more_files: 0,
        answers: "the network, its requests and links as one HTML page that needs no other file",
        no: "a request isn't accepted",
    },
    Entry {
        question: Question::Picture,
        word: "picture",
        operands: "WHICH FILE",
        before: ONE,
        after: NONE,
        more_files: 0,
        answers: "a picture as SVG; WHICH is delays, links or network",
        no: "a request isn't accepted",
    },
];

/// An option.
#[derive(Clone, Copy)]
pub struct Choice {
    pub word: &'static str,
    pub does: &'static str,
}

/// All options.
pub const CHOICES: [Choice; 5] = [
    Choice {
        word: "--csv",
        does: "writes the table as CSV",
    },
    Choice {
        word: "--json",
        does: "writes the table and the answer as JSON",
    },
    Choice {
        word: "--least",
        does: "tells with batch the least delay of each request, too",
    },
    Choice {
        word: "--workers",
        does: "with a number from 1 to 64: judges the variants of batch by so many threads, and not by as many as there are processors",
    },
    Choice {
        word: "--help",
        does: "shows this help, or with a question the help on it",
    },
];

/// What the words ask for. Words are named by their places.
#[derive(Drop)]
pub enum Wish {
    /// Help, on one question or on all.
    Help(Option<Question>),
    /// An answer.
    Answer(Asked),
}

/// A question that is asked.
#[derive(Drop)]
pub struct Asked {
    pub question: Question,
    pub format: Format,
    /// The places of the words before the file.
    pub before: Vec<usize>,
    /// The place of the file's name.
    pub file: usize,
    /// The places of the words behind it.
    pub after: Vec<usize>,
    /// Whether least delays are wanted, too.
    pub least: bool,
    /// How many threads are wanted, where that is said.
    pub workers: Option<usize>,
}

/// Why words ask for nothing. Words are named by their places.
#[derive(Clone, Copy, Debug, PartialEq, Eq)]
pub enum BadWords {
    /// Out of memory.
    Memory,
    /// There are none.
    Missing,
    /// The word isn't a question.
    Question(usize),
    /// The word isn't an option.
    Option(usize),
    /// The option wants a number behind it.
    Number(usize),
    /// The operands of this question aren't these.
    Operands(Question),
}

impl From<AllocError> for BadWords {
    fn from(_refused: AllocError) -> BadWords {
        BadWords::Memory
    }
}

impl<T: Drop> From<AllocFailed<T>> for BadWords {
    fn from(_refused: AllocFailed<T>) -> BadWords {
        BadWords::Memory
    }
}

// What was read of the words so far.
#[derive(Drop)]
struct Reading {
    wants_help: bool,
    format: Format,
    least: bool,
    workers: Option<usize>,
    // The place of an option whose number comes next.
    unfinished: Option<usize>,
    operands: Vec<usize>,
}

/// What the words after the program's name ask for.
pub fn read_words(alloc: Global, words: &[String]) -> Result<Wish, BadWords> {
    let mut reading = Reading {
        wants_help: false,
        format: Format::Text,
        least: false,
        workers: None,
        unfinished: None,
        operands: Vec::new(alloc),
    };
    let mut place: usize = 0;
    for word in words {
        reading.take(word.as_str(), place)?;
        place = place.saturating_add(1);
    }
    if let Some(place) = reading.unfinished {
        return Err(BadWords::Number(place));
    }
    reading.into_wish(alloc, words)
}

impl Reading {
    // Takes the next word.
    fn take(&mut self, word: &str, place: usize) -> Result<(), BadWords> {
        if let Some(option) = self.unfinished {
            self.workers = Some(workers_of(word).ok_or(BadWords::Number(option))?);
            self.unfinished = None;
        } else if word == "--help" || word == "-h" {
            self.wants_help = true;
        } else if word == "--csv" {
            self.format = Format::Csv;
        } else if word == "--json" {
            self.format = Format::Json;
        } else if word == "--least" {
            self.least = true;
        } else if word == "--workers" {
            self.unfinished = Some(place);
        } else if is_option(word) {
            return Err(BadWords::Option(place));
        } else {
            self.operands.push(place)?;
        }
        Ok(())
    }

    // What all of them ask for.
    fn into_wish(self, alloc: Global, words: &[String]) -> Result<Wish, BadWords> {
        let operands = self.operands.as_slice();
        let [first, rest @ ..] = operands else {
            return if self.wants_help {
                Ok(Wish::Help(None))
            } else {
                Err(BadWords::Missing)
            };
        };
        let word = word_at(words, *first);
        if word == "help" {
            return Ok(Wish::Help(None));
        }
        let Some(entry) = entry_named(word) else {
            return Err(BadWords::Question(*first));
        };
        if self.wants_help {
            return Ok(Wish::Help(Some(entry.question)));
        }
        let mut asked = asked_of(alloc, &entry, self.format, rest)?;
        asked.least = self.least;
        asked.workers = self.workers;
        Ok(Wish::Answer(asked))
    }
}

// So many workers: from 1 to 64.
fn workers_of(word: &str) -> Option<usize> {
    let number = word.parse::<usize>().ok()?;
    if 1 <= number && number <= 64 {
        Some(number)
    } else {
        None
    }
}

// Whether a word begins as an option does; `-` alone is standard input.
fn is_option(word: &str) -> bool {
    matches!(word.as_bytes(), [b'-', _, ..])
}

// The question with these operands.
fn asked_of(
    alloc: Global,
    entry: &Entry,
    format: Format,
    operands: &[usize],
) -> Result<Asked, BadWords> {
    let Some((before, file, after)) = parted(entry, operands) else {
        return Err(BadWords::Operands(entry.question));
    };
    Ok(Asked {
        question: entry.question,
        format,
        before: Vec::from_slice(alloc, before)?,
        file,
        after: Vec::from_slice(alloc, after)?,
        least: false,
        workers: None,
    })
}

// The operands before the file, the file, and those behind it: None where they are too few or too many.
fn parted<'a>(entry: &Entry, operands: &'a [usize]) -> Option<(&'a [usize], usize, &'a [usize])> {
    let place = if entry.before.fewest == entry.before.most {
        entry.before.fewest
    } else {
        operands
            .len()
            .checked_sub(entry.after.fewest)?
            .checked_sub(1)?
    };
    let before = operands.get(..place)?;
    let file = *operands.get(place)?;
    let after = operands.get(place.saturating_add(1)..)?;
    if is_within(before.len(), &entry.before) && is_within(after.len(), &entry.after) {
        Some((before, file, after))
    } else {
        None
    }
}

fn is_within(number: usize, count: &Count) -> bool {
    count.fewest <= number && number <= count.most
}

/// The word at a place, or nothing.
pub fn word_at(words: &[String], place: usize) -> &str {
    match words.get(place) {
        Some(word) => word.as_str(),
        None => "",
    }
}

/// The entry of a question's word.
fn entry_named(word: &str) -> Option<Entry> {
    for entry in &QUESTIONS {
        if entry.word == word {
            return Some(*entry);
        }
    }
    None
}

/// The entry of a question.
pub fn entry_of(question: Question) -> Entry {
    for entry in &QUESTIONS {
        if entry.question == question {
            return *entry;
        }
    }
    QUESTIONS[0]
}
