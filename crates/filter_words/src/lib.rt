// Filters kept as words of 64 bits, W210-1. The calls of `filter` do to words what `filter_rules` says of their octets (W210-6): specs/
// says so, and proofs/ that it holds.
#![tactic(auto)]

ghost use Rattle.std.specs.Prelude.{◌≡◌};
ghost use Rattle.filter_words.specs.Words.{fresh_words};

// B-1.
pub fn fresh() -> [u64; 64]
    ensures { result ≡ fresh_words }
{
    [0; 64]
}
