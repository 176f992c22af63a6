//! Laws of the definitions, each a function that does nothing and whose contract is the law.
ghost use Rattle.std.specs.Prelude.{◌≡◌, ◌≤◌, ℕ, List, length, None};
ghost use Rattle.sz_types.specs.declared.frame.Frame.{Frame};
ghost use Rattle.sz_records.specs.declared.ending.Ending.{Ending};
ghost use Rattle.sz_records.specs.declared.limits.FrameLimits.{FrameLimits};
ghost use Rattle.sz_records.specs.Cutting.{IsCut, HasCut};
ghost use Rattle.sz_records.specs.Behind.{RestIsCutSo};
ghost use Rattle.sz_records.specs.Fed.{FramerData, HasReadBehind, EndsSo};

/// Each file is cut in just one way.
pub fn each_file_is_cut_once()
    ensures some { (frame : Frame) (limits : FrameLimits) (file : List ℕ) → HasCut frame limits 0 0 file }
    ensures one { (frame : Frame) (limits : FrameLimits) (file : List ℕ) (records others : List (List ℕ)) (ending other : Ending)
        → IsCut frame limits 0 0 file records ending → IsCut frame limits 0 0 file others other
        → (records ≡ others) × (ending ≡ other) }
{}

/// No file has more records than there may be.
pub fn records_are_few()
    ensures few { (frame : Frame) (limits : FrameLimits) (file : List ℕ) (records : List (List ℕ)) (ending : Ending)
        → IsCut frame limits 0 0 file records ending → length records ≤ limits.records }
{}

/// Bytes after which a framer knows no ending fix none: files that begin with them end in more than one way.
pub fn what_is_unfinished_fixes_no_ending()
    ensures none { (p n : ℕ) (frame : Frame) (limits : FrameLimits) (framer : FramerData) (fed : List ℕ) (given : List (List ℕ)) (ending : Ending)
        → HasReadBehind p n frame limits framer fed given → framer.ended ≡ None → EndsSo p n frame limits fed ending → ⊥ }
{}

/// Behind any of its records a file goes on as it is cut: what stands there has the file's further records, which end where they do in the
/// file, and the file's ending.
pub fn the_rest_is_cut_so()
    ensures rest { RestIsCutSo }
{}
