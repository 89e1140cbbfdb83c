//! The fixed words of the language.
ghost use Rattle.std.specs.Prelude.{◌≡◌};
ghost use Rattle.line_forms.specs.Words.{text_of, is_word};

/// A fixed word of the grammar.
#[derive(Clone, Copy, Debug, PartialEq, Eq)]
pub enum Keyword {
    Link,
    Group,
    Quota,
    Caller,
    Open,
    Send,
    Close,
    Pour,
    Move,
    Rounds,
    Tail,
    Schedule,
    Do,
    Rate,
    Cap,
    Prop,
    Buffer,
    Best,
    Levels,
    Route,
    Contract,
    Delay,
    Jitter,
    From,
    To,
}

impl Keyword {
    /// The word.
    pub fn as_str(self) -> &'static str
        ensures { result.now ≡ text_of self }
    {
        match self {
            Keyword::Link => "link",
            Keyword::Group => "group",
            Keyword::Quota => "quota",
            Keyword::Caller => "caller",
            Keyword::Open => "open",
            Keyword::Send => "send",
            Keyword::Close => "close",
            Keyword::Pour => "pour",
            Keyword::Move => "move",
            Keyword::Rounds => "rounds",
            Keyword::Tail => "tail",
            Keyword::Schedule => "schedule",
            Keyword::Do => "do",
            Keyword::Rate => "rate",
            Keyword::Cap => "cap",
            Keyword::Prop => "prop",
            Keyword::Buffer => "buffer",
            Keyword::Best => "best",
            Keyword::Levels => "levels",
            Keyword::Route => "route",
            Keyword::Contract => "contract",
            Keyword::Delay => "delay",
            Keyword::Jitter => "jitter",
            Keyword::From => "from",
            Keyword::To => "to",
        }
    }

    /// Whether the field is this word.
    pub fn is(self, field: &[u8]) -> bool
        ensures { result ≡ is_word self field.now }
    {
        field == self.as_str().as_bytes()
    }
}
