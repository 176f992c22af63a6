//! The law of the format, as a function that does nothing and whose contract is the law.
ghost use Rattle.sz_save_format.specs.Laws.{IsOneSpelling};

/// No bytes are those of two saved states.
pub fn one_spelling()
    ensures law { IsOneSpelling }
{}
