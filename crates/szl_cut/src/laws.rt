//! Laws of the definitions, each a function that does nothing and whose contract is the law.
ghost use Rattle.std.specs.Prelude.{◌-◌, ◌/◌, ◌≤◌, ℕ, List, length};
ghost use Rattle.sz_types.specs.declared.frame.Frame.TheVariants.{Delimited};
ghost use Rattle.sz_records.specs.declared.ending.Ending.TheVariants.{Whole};
ghost use Rattle.sz_records.specs.Cutting.{full, IsCut};
ghost use Rattle.szl_cut.specs.Cuts.{file_cuts};
ghost use Rattle.szl_cut.specs.Parts.{parts, HoldTogether};

/// Each part of a whole file is a whole file by itself, and their messages, one part's after the other's, are those of the file.
pub fn parts_hold_the_records()
    ensures hold { (size : ℕ) (file : List ℕ) (messages : List (List ℕ)) → IsCut Delimited full 0 0 file messages Whole
        → HoldTogether (parts 0 (file_cuts size file (length messages)) file) messages }
{}

/// A file has no more parts than there are sizes in it, the last one not whole.
pub fn parts_are_few()
    ensures few { (size : ℕ) (file : List ℕ) (messages : List (List ℕ)) → 1 ≤ size → IsCut Delimited full 0 0 file messages Whole
        → length (file_cuts size file (length messages)) ≤ (length file - 1) / size }
{}
