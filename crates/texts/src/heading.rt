ghost use Rattle.texts.specs.Records.{LetterOf};

/// The rule by which the benches are served.
#[derive(Clone, Copy, Debug, PartialEq, Eq)]
pub enum Rule {
    /// The line rule; its letter is `L`.
    Line,
    /// The booking rule; its letter is `B`.
    Booking,
}

/// A byte that is no rule's letter.
#[derive(Clone, Copy, Debug, PartialEq, Eq)]
pub struct UnknownLetter(pub u8);

impl TryFrom<u8> for Rule {
    type Error = UnknownLetter;

    ghost try_from_gives = { LetterOf };

    fn try_from(letter: u8) -> Result<Rule, UnknownLetter> {
        match letter {
            b'L' => Ok(Rule::Line),
            b'B' => Ok(Rule::Booking),
            _ => Err(UnknownLetter(letter)),
        }
    }
}

/// What the first line of a text tells, and how many jobs follow it.
#[derive(Clone, Copy)]
pub struct Heading<K> {
    pub rule: Rule,
    pub benches: u32,
    pub floor: K,
    pub jobs: usize,
}
