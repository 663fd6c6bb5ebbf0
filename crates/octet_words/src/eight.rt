// Eight octets as a word, the first the lowest.
ghost use Rattle.std.specs.Prelude.{◌≡◌, ◌+◌, ◌≤◌, length};
ghost use Rattle.std.proofs.Math.Seq.{paste};
ghost use Rattle.word_rules.specs.Words.{low_first, low_octets};

// Lowest first and of one width: `octets::number` has the other order.
#[tactic(auto, unfolding(word_rules::specs::Words::low_first))]
pub(crate) fn load(s: &[u8], at: usize) -> u64
    requires { at + 8 ≤ length s.now }
    ensures { result ≡ low_first s.now at 8 }
{
    u64::from_le_bytes([
        s[at],
        s[at + 1],
        s[at + 2],
        s[at + 3],
        s[at + 4],
        s[at + 5],
        s[at + 6],
        s[at + 7],
    ])
}

pub(crate) fn store(s: &mut [u8], at: usize, w: u64)
    requires { at + 8 ≤ length s.old }
    ensures { s.new ≡ paste s.old at (low_octets 8 w) 8 }
{
    s[at..at + 8].copy_from_slice(&w.to_le_bytes());
}
