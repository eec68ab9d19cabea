//! Numbers as they are written in words of a command and in parts of an address.
ghost use Rattle.std.specs.Prelude.{◌≡◌, ◌≢◌, ℕ, ◌^◌, ◌<◌, decimal, MatchOption, IsTrue, ◌↔◌};
ghost use Rattle.mt_cells.specs.Numbers.{IsPlain};

/// The number below 2^64 whose decimal digits the word is: no sign, and no zero in front but for `0`
/// itself.
pub fn plain_number(word: &str) -> Option<u64>
    ensures { MatchOption result ((n : ℕ) → n < 2 ^ 64 → word.now ≢ decimal n)
        (λ n. (n < 2 ^ 64) × (word.now ≡ decimal n)) }
{
    if !is_plain(word.as_bytes()) {
        return None;
    }
    word.parse().ok()
}

// Whether no plus stands first, and a zero only where it is alone.
fn is_plain(word: &[u8]) -> bool
    ensures { IsTrue result ↔ IsPlain word.now }
{
    match word {
        [] => true,
        [first, rest @ ..] => *first != b'+' && (*first != b'0' || rest.is_empty()),
    }
}
