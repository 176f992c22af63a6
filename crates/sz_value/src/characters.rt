//! Texts by characters, by a walk over them.
ghost use Rattle.std.specs.Prelude.{◌≡◌, ◌<◌, ◌^◌, length, chars, IfSome, IfNone};
ghost use Rattle.sz_value.specs.Characters.{IsRestAfter};

/// The text after its first `count` characters, or none where it has fewer.
#[tactic(auto, using(crate::proofs::CharacterLemmas::at_front, crate::proofs::CharacterLemmas::too_few))]
pub fn rest_after(text: &str, count: u64) -> Option<&str>
    ensures some { IfSome result (λ rest. IsRestAfter count text.now rest.now) }
    ensures none { IfNone result (length (chars text.now) < count) }
{
    let mut rest = text.chars();
    for _ in 0..count {
        rest.next()?;
    }
    Some(rest.as_str())
}

/// The number of characters.
pub fn character_count(text: &str) -> usize
    ensures value { result ≡ length (chars text.now) }
    ensures small { result < 2 ^ 63 }
{
    text.chars().count()
}
