//! Laws of the text of all tables, each a function that does nothing and whose contract is the law.
ghost use Rattle.sz_print.specs.Laws.{ShowsItsEmits, ForgetsOrder, MergesEitherWay, MergesInAnyGroups};

use sz_total::tables_forget_the_order;

/// What a total shows has the text of each list of emits that it stands for.
pub fn rows_have_the_text_of_their_emits()
    ensures emits { ShowsItsEmits }
{}

/// The text doesn't depend on the order of emits, nor on the order of merges: two sides may be merged either way, and three in either
/// grouping, of which any order of any merges is made.
pub fn text_forgets_the_order()
    ensures emits { ForgetsOrder }
    ensures either { MergesEitherWay }
    ensures groups { MergesInAnyGroups }
{
    tables_forget_the_order();
}
