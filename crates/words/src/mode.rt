// The words of a poll's mode: basic or interleaved, each alone or with +correction after it, which asks for a correction.
ghost use Rattle.std.specs.Prelude.{◌≡◌};
ghost use Rattle.words.specs.Mode.{interleaved_word, correction_word, mode_word};

use text::same;

#[tactic(auto, unfolding(crate::specs::Mode::interleaved_word))]
pub fn is_interleaved(word: &[u8]) -> bool
    ensures { result ≡ interleaved_word word.now }
{
    same(word, b"interleaved") | same(word, b"interleaved+correction")
}

#[tactic(auto, unfolding(crate::specs::Mode::correction_word))]
pub fn is_correction(word: &[u8]) -> bool
    ensures { result ≡ correction_word word.now }
{
    same(word, b"basic+correction") | same(word, b"interleaved+correction")
}

#[tactic(auto, unfolding(crate::specs::Mode::mode_word))]
pub fn is_mode(word: &[u8]) -> bool
    ensures { result ≡ mode_word word.now }
{
    same(word, b"basic") | is_interleaved(word) | is_correction(word)
}
