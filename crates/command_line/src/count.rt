//! The number of images a thread, as a word.

ghost use Rattle.std.specs.Prelude.{◌≡◌, ◌-◌, ℕ, MatchOption};
ghost use Rattle.command_line.specs.CommandLine.{IsCount, IsDecimalDigit};

/// The greatest number of images a thread.
pub const MOST_IMAGES: u32 = 500;

/// The number of one to three digits, where it is from 1 to 500.
pub fn count_of(word: &[u8]) -> Option<u32>
    ensures { MatchOption result ((count : ℕ) → ¬ IsCount word.now count) (IsCount word.now) }
{
    let number = match word {
        [units] => digit_of(*units)?,
        [tens, units] => 10 * digit_of(*tens)? + digit_of(*units)?,
        [hundreds, tens, units] => {
            100 * digit_of(*hundreds)? + 10 * digit_of(*tens)? + digit_of(*units)?
        }
        _ => return None,
    };
    if 1 <= number && number <= MOST_IMAGES {
        Some(number)
    } else {
        None
    }
}

/// The number of a digit 0 to 9.
fn digit_of(byte: u8) -> Option<u32>
    ensures { MatchOption result (¬ IsDecimalDigit byte)
        (λ digit. IsDecimalDigit byte × (digit ≡ byte - 48)) }
{
    if 48 <= byte && byte <= 57 {
        Some((byte - 48) as u32)
    } else {
        None
    }
}
