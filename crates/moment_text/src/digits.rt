//! Numbers written in decimal digits.
ghost use Rattle.std.specs.Prelude.{◌≡◌, ◌≤◌, ◌<◌, ◌-◌, ◌++◌, IfSome, length, replicate};
ghost use Rattle.stamp_values.specs.Ascii.{digit_zero};
ghost use Rattle.moment_text.specs.IsoReader.{number_of};

/// The number that at most seven digits write, or `None` if one of the bytes is not a digit.
#[tactic(auto, using(crate::proofs::DigitLemmas::ten_pow), unfolding(crate::specs::IsoReader::number_of))]
pub(crate) fn number(digits: &[u8]) -> Option<u32>
    requires { length digits.now ≤ 7 }
    ensures value { result ≡ number_of digits.now }
    ensures bound { IfSome result (λ n. n < 10_000_000) }
{
    let mut number = 0;
    for digit in digits {
        if !digit.is_ascii_digit() {
            return None;
        }
        number = number * 10 + (*digit - b'0') as u32;
    }
    Some(number)
}

/// The bytes, and after them as many digits 0 as give seven bytes.
#[tactic(auto, using(crate::proofs::DigitLemmas::zeros_left))]
pub(crate) fn seven_digits(digits: &[u8]) -> [u8; 7]
    requires { length digits.now ≤ 7 }
    ensures { result ≡ digits.now ++ replicate (7 - length digits.now) digit_zero }
{
    let mut filled = [b'0'; 7];
    filled[..digits.len()].copy_from_slice(digits);
    filled
}
