ghost use Rattle.std.specs.Prelude.{◌≡◌, ◌^◌, ◌<◌, IfOk};
ghost use Rattle.std.specs.Result.{result_ok};
ghost use Rattle.lj_text.specs.Numbers.{number_of};

use thiserror::Error;

/// A token that is not 1 to 18 decimal digits.
#[derive(Clone, Copy, Debug, PartialEq, Eq, Error)]
#[error("not a number")]
pub struct NotNumber;

/// The number that a token spells: 1 to 18 decimal digits, leading zeros allowed.
pub fn number(token: &[u8]) -> Result<u64, NotNumber>
    ensures value { result_ok result ≡ number_of token.now }
    ensures small { IfOk result (λ n. n < 10 ^ 18) }
{
    if token.is_empty() || token.len() > 18 {
        return Err(NotNumber);
    }
    let mut value = 0;
    for byte in token {
        if !byte.is_ascii_digit() {
            return Err(NotNumber);
        }
        value = 10 * value + u64::from(*byte - b'0');
    }
    Ok(value)
}
