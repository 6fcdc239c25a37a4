//! What the text of a run is, and which refusal a text deserves.
#![tactic(auto)]

ghost use Rattle.prints.specs.Answers.{OneRefusal, NotBoth, OneRun};
ghost use Rattle.prints.specs.Decimal.{DigitOf};

/// A text has one answer: it is granted or refused, and not both; it is refused in one way; and the
/// run that it is the text of is the only one.
pub fn one_answer() -> bool
    ensures refusal { OneRefusal }
    ensures other { NotBoth }
    ensures run { OneRun }
{
    true
}

/// What the byte stands for, if it is a digit.
pub fn digit_of(byte: u8) -> Option<u8>
    ensures { DigitOf byte result }
{
    match byte {
        b'0'..=b'9' => Some(byte - b'0'),
        _ => None,
    }
}
