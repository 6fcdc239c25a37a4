ghost use Rattle.std.specs.Prelude.{◌≡◌, ℕ, MatchOption, ◌≢◌};
ghost use Rattle.prints.specs.Decimal.{decimal};
ghost use Rattle.replies.specs.Words.{held_number, LineOf};

use logs::Call;
use prints::digit_of;

/// The number that the digits write, if they are the digits of one, with no leading zero. A number
/// too large for a `usize` is cut to the largest: no board has so many benches or jobs, so the cut
/// number is outside of it just as well.
fn number_of(digits: &[u8]) -> Option<usize>
    ensures { MatchOption result ((n : ℕ) → digits.now ≢ decimal n) (λ v. (n : ℕ) × (digits.now ≡ decimal n) × (v ≡ held_number n)) }
{
    let (first, rest) = digits.split_first()?;
    if *first == b'0' && !rest.is_empty() {
        return None;
    }
    let mut number: usize = 0;
    for digit in digits {
        let value = digit_of(*digit)?;
        number = number.saturating_mul(10).saturating_add(usize::from(value));
    }
    Some(number)
}

/// The call that a line is, without its end: `start`, `report` or `ask`, one space, and a number.
pub fn call_of(line: &[u8]) -> Option<Call>
    ensures { MatchOption result ((c : Call) → LineOf line.now c → ⊥) (λ c. LineOf line.now c) }
{
    if let Some(digits) = line.strip_prefix(b"start ") {
        Some(Call::Start(number_of(digits)?))
    } else if let Some(digits) = line.strip_prefix(b"report ") {
        Some(Call::Report(number_of(digits)?))
    } else if let Some(digits) = line.strip_prefix(b"ask ") {
        Some(Call::Ask(number_of(digits)?))
    } else {
        None
    }
}
