//! What holds of all lists of tokens. The calls do nothing: each promises a law of `specs/Program.antt`.
ghost use Rattle.std.specs.Prelude.{◌≡◌};
ghost use Rattle.sz_parse.specs.Program.{greatest_height, SpellsOneTree, IsNotStuck, IsStuckOnce, EveryListIsRead};

use sz_parse_expr::MAX_HEIGHT;

/// A list of tokens spells at most one tree.
pub fn trees_are_unique()
    ensures { SpellsOneTree }
{}

/// A list of tokens that spells a tree is refused nowhere, and any other at one place at most.
pub fn refusal_is_unique()
    ensures none { IsNotStuck }
    ensures one { IsStuckOnce }
{}

/// A list of tokens spells a tree, or it is refused.
pub fn every_list_is_read()
    ensures { EveryListIsRead }
{}

/// A tree of height 256 is read, and none that is higher.
pub fn greatest_height_is_256()
    ensures value { MAX_HEIGHT ≡ 256 }
    ensures defined { MAX_HEIGHT ≡ greatest_height }
{}
