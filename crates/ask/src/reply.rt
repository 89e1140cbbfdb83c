//! What the program answers.
use crate::status::Status;
use answer_grids::Answer;

/// What the program answers.
#[derive(Drop)]
pub enum Reply {
    /// A table and sentences, which are written in the format that is asked for.
    Answer(Answer),
    /// A text that is written as it stands, and whether it is a yes.
    Text { text: String, holds: bool },
    /// There is no answer: what is said on standard error, and how the program ends.
    Refused { text: String, status: Status },
}
