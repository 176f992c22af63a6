//! The law of the spellings, as a function that does nothing and whose contract is the law.
ghost use Rattle.sz_flat.specs.Laws.{IsOneSpelling};

/// Two values that are spelled alike are the same, and none of two others is spelled as a front of the other.
#[tactic(auto, using(crate::proofs::SpellingLemmas::one_spelling))]
pub fn one_spelling()
    ensures law { IsOneSpelling }
{}
