//! The parts of a text, one by one. Each method says which bytes it took, and that it stands after
//! them in every text that stood before it; or it refuses every such text.
ghost use Rattle.std.specs.Prelude.{◌≡◌, ℕ, ◌+◌, ◌-◌, ◌<◌, ◌≤◌, true, false, [], ◌∷◌, ◌++◌, map, length, IfOk, MatchOption, MatchResult, nat_lt, slice_index};
ghost use Rattle.refusals.specs.declared.Refusal.TheVariants.{TextByte};
ghost use Rattle.prints.specs.Decimal.{digit as is_digit, DigitOf, decimal};
ghost use Rattle.prints.specs.Runs.{marked, lines, text_of, AmountHeld, LineHeld, RunHeld};
ghost use Rattle.prints.specs.Parts.{number as number_part, byte as byte_part, letter as letter_part, Apart, amount_parts, job_parts, heading_parts};
ghost use Rattle.texts.specs.Steps.{Accepts, Reads, Any, mark_of};
ghost use Rattle.texts.specs.Records.{front, letter_of, line_of, run_of, Fresh};

use super::Reader;
use crate::heading::{Heading, Rule};
use amounts::Amount;
use jobs::Job;
use prints::digit_of;
use refusals::{AXIS_BOUND, FLOOR_BOUND, MINUTES_BOUND, MOST_BENCHES, MOST_JOBS, Refusal};

/// The byte before an axis of an amount.
fn mark(axis: u32) -> u8
    ensures { result ≡ mark_of axis }
{
    if axis == 1 { b' ' } else { b'/' }
}

/// The amount with one axis more.
fn put<K: Amount>(amount: K, axis: u32, value: u32) -> K
    requires { (1 ≤ axis) × (axis ≤ K.Amount.width) × (axis ≤ 64) × (value ≤ 1000000000) }
    ensures { front K.Amount.reading axis result ≡ front K.Amount.reading (axis - 1) amount ++ (value ∷ []) }
{
    amount.with_axis(axis, u64::from(value)).unwrap()
}

impl<K: Amount> Reader<'_, K> {
    /// The byte that comes next.
    fn next(&self) -> Option<u8>
        ensures { MatchOption result (self.now.pos ≡ length self.now.bytes.now) (λ b. (self.now.pos < length self.now.bytes.now) × (b ≡ slice_index self.now.bytes.now self.now.pos)) }
    {
        self.bytes.get(self.pos).copied()
    }

    /// Whether the text goes on.
    pub(crate) fn more(&self) -> bool
        ensures { result ≡ nat_lt self.now.pos (length self.now.bytes.now) }
    {
        self.pos < self.bytes.len()
    }

    /// What is said where no text goes on with the byte that comes next.
    fn unfit(&self) -> Refusal
        ensures { result ≡ TextByte self.now.line self.now.column }
    {
        Refusal::TextByte {
            line: self.line,
            column: self.column,
        }
    }

    /// Over the byte that comes next, where `read` makes something of it; else it is refused.
    fn accept<T, F: FnOnce(u8) -> Option<T>>(&mut self, read: F) -> Result<T, Refusal>
        requires { F.IsAlwaysCallable read }
        ensures { Accepts (F.post read) self.old self.new result }
    {
        if let Some(b) = self.next()
            && let Some(x) = read(b)
        {
            self.step();
            return Ok(x);
        }
        Err(self.unfit())
    }

    /// A digit.
    fn digit(&mut self) -> Result<u8, Refusal>
        ensures { Accepts DigitOf self.old self.new result }
    {
        self.accept(digit_of)
    }

    /// The byte `b`, which is no digit.
    fn byte(&mut self, b: u8) -> Result<(), Refusal>
        requires { is_digit b ≡ false }
        ensures { Reads (byte_part b ∷ []) Any (λ _. b ∷ []) self.old self.new result }
    {
        self.accept(|c| (c == b).then_some(()))
    }

    /// A number of at most `bound`, with no leading zero.
    fn digits(&mut self, bound: u32) -> Result<u32, Refusal>
        ensures reads { Reads (number_part bound ∷ []) Apart decimal self.old self.new result }
        ensures bounded { IfOk result (λ n. n ≤ bound) }
    {
        let (line, column) = (self.line, self.column);
        let first = self.digit()?;
        if first == 0 {
            return Ok(0);
        }
        let mut value = u64::from(first);
        while value <= u64::from(bound) {
            let Ok(d) = self.digit() else {
                return Ok(value as u32);
            };
            value = value * 10 + u64::from(d);
        }
        Err(Refusal::TextNumber { line, column })
    }

    /// A number after the byte `mark`.
    fn number(&mut self, mark: u8, bound: u32) -> Result<u32, Refusal>
        requires { is_digit mark ≡ false }
        ensures reads { Reads (byte_part mark ∷ number_part bound ∷ []) Apart (λ n. mark ∷ decimal n) self.old self.new result }
        ensures bounded { IfOk result (λ n. n ≤ bound) }
    {
        self.byte(mark)?;
        self.digits(bound)
    }

    /// The letter of a rule.
    fn letter(&mut self) -> Result<Rule, Refusal>
        ensures { Reads (letter_part ∷ []) Any (λ a. letter_of a ∷ []) self.old self.new result }
    {
        self.accept(|b| Rule::try_from(b).ok())
    }

    /// The bytes of a word, none of them a digit.
    fn word(&mut self, w: &[u8]) -> Result<(), Refusal>
        requires { (i : ℕ) → i < length w.now → is_digit (slice_index w.now i) ≡ false }
        ensures { Reads (map byte_part w.now) Any (λ _. w.now) self.old self.new result }
    {
        for b in w {
            self.byte(*b)?;
        }
        Ok(())
    }

    /// An amount of a kind: a space, and a number on each axis, with a slash between two.
    fn amount(&mut self, bound: u32) -> Result<K, Refusal>
        requires { bound ≤ 1000000000 }
        ensures reads { Reads (amount_parts 32 K.Amount.width bound) Apart (λ a. marked 32 (front K.Amount.reading K.Amount.width a)) self.old self.new result }
        ensures held { IfOk result (λ a. AmountHeld K.Amount.width true bound (front K.Amount.reading K.Amount.width a)) }
    {
        let mut amount = K::zero();
        for axis in 1..=K::count() {
            let value = self.number(mark(axis), bound)?;
            amount = put(amount, axis, value);
        }
        Ok(amount)
    }

    /// A job's line.
    pub(crate) fn job(&mut self) -> Result<Job<K>, Refusal>
        ensures reads { Reads (job_parts K.Amount.width) Any (λ j. lines (line_of K.Amount.reading K.Amount.width j ∷ [])) self.old self.new result }
        ensures held { IfOk result (λ j. LineHeld K.Amount.width true (line_of K.Amount.reading K.Amount.width j)) }
        ensures fresh { IfOk result (λ j. Fresh K.Amount.reading j) }
    {
        self.word(b"job")?;
        let parent = self.number(b' ', MOST_JOBS as u32)?;
        let work = self.amount(AXIS_BOUND as u32)?;
        let output = self.amount(AXIS_BOUND as u32)?;
        let minutes = self.number(b' ', MINUTES_BOUND)?;
        self.byte(b'\n')?;
        Ok(Job::new(parent, work, output, minutes))
    }

    /// The first line, with no job counted yet.
    pub(crate) fn heading(&mut self) -> Result<Heading<K>, Refusal>
        ensures reads { Reads (heading_parts K.Amount.width) Any (λ h. text_of (run_of K.Amount.reading K.Amount.width h [])) self.old self.new result }
        ensures held { IfOk result (λ h. RunHeld K.Amount.width true (run_of K.Amount.reading K.Amount.width h [])) }
    {
        self.word(b"hall ")?;
        let rule = self.letter()?;
        let benches = self.number(b' ', MOST_BENCHES)?;
        let floor = self.amount(FLOOR_BOUND as u32)?;
        self.byte(b'\n')?;
        Ok(Heading {
            rule,
            benches,
            floor,
            jobs: 0,
        })
    }
}
