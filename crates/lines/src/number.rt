// Numbers in decimal, read from bytes.
ghost use Rattle.std.specs.Prelude.{◌≡◌, ℕ, ◌^◌, ◌<◌, ◌≤◌, List, ◌∷◌, ◌++◌, length, decimal, MatchOption, ◌≢◌, slice_index};
ghost use Rattle.std.specs.Int.{IsInRange};
ghost use Rattle.lines.specs.Numbers.{Ends};

use std::str::from_utf8;

// How many digits the bytes begin with.
fn digit_count(bytes: &[u8]) -> usize
    ensures within { result ≤ length bytes.now }
    ensures digits { (k : ℕ) → k < result → IsInRange 48 57 (slice_index bytes.now k) }
    ensures stops { IsInRange 48 57 (slice_index bytes.now result) → ⊥ }
{
    bytes
        .iter()
        .position(|byte| !byte.is_ascii_digit())
        .unwrap_or(bytes.len())
}

// The number that digits write, without a zero in front of it.
fn number(digits: &[u8]) -> Option<u64>
    requires { (k : ℕ) → k < length digits.now → IsInRange 48 57 (slice_index digits.now k) }
    ensures { MatchOption result ((n : ℕ) → n < 2 ^ 64 → digits.now ≢ decimal n) (λ n. (n < 2 ^ 64) × (digits.now ≡ decimal n)) }
{
    if digits.len() > 1 && digits[0] == b'0' {
        return None;
    }
    let Ok(text) = from_utf8(digits) else {
        return None;
    };
    text.parse().ok()
}

// The number behind a space, and what stands behind the number.
pub fn next_number(bytes: &[u8]) -> Option<(u64, &[u8])>
    ensures { MatchOption result ((n : ℕ) (rest : List ℕ) → n < 2 ^ 64 → Ends rest → bytes.now ≢ 32 ∷ (decimal n ++ rest)) (λ p. (p.0 < 2 ^ 64) × Ends p.1.now × (bytes.now ≡ 32 ∷ (decimal p.0 ++ p.1.now))) }
{
    let (space, rest) = bytes.split_first()?;
    if *space != b' ' {
        return None;
    }
    let (digits, behind) = rest.split_at(digit_count(rest));
    let n = number(digits)?;
    Some((n, behind))
}
