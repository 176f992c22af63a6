//! The law.
ghost use Rattle.sz_save_names.specs.Laws.{TablesHaveSpellings};

use sz_lex::spans_lie_in_order;

/// The tables of a program that a text spells have a spelling in a saved file, where their types are low; so they have with the table
/// of the lines that were passed over behind them. Types may be known round the program that have their bytes in a saved file.
pub fn tables_have_spellings()
    ensures value { TablesHaveSpellings }
{
    spans_lie_in_order();
}
