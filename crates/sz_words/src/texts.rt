//! Texts cut at a byte.
ghost use Rattle.std.specs.Prelude.{◌≡◌, ◌+◌, [], ◌∷◌, length, MatchOption, IfSome, Some, None};
ghost use Rattle.sz_words.specs.Texts.{pieces};

use memchr::memchr;

/// The bytes before the first place of the mark and those after it, if it stands in the text.
#[tactic(auto, using(crate::proofs::CutLemmas::pieces_at, crate::proofs::CutLemmas::pieces_none))]
pub fn cut(mark: u8, text: &[u8]) -> Option<(&[u8], &[u8])>
    ensures pieces { MatchOption result (pieces mark text.now ≡ text.now ∷ [])
        (λ cut. pieces mark text.now ≡ cut.0.now ∷ pieces mark cut.1.now) }
    ensures shorter { IfSome result (λ cut. length cut.0.now + 1 + length cut.1.now ≡ length text.now) }
{
    match memchr(mark, text) {
        None => None,
        Some(place) => {
            let (before, _) = text.split_at(place);
            let (_, later) = text.split_at(place + 1);
            Some((before, later))
        }
    }
}
