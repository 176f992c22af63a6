//! Lists of declarations of tables.
use crate::table::TableDecl;
use std::marker::Model;
use sz_list::{Seen, SeenItems};

/// The tables of a program, in the order of their declarations. Contracts see the list of their plain data.
pub type TableDecls = SeenItems<TableDecl, TableData>;

/// A declaration that is its plain data in contracts. Lists of declarations name it, and no code makes one.
#[derive(Debug)]
pub struct TableData {
    table: TableDecl,
}

impl Model for TableData {
    ghost use Rattle.sz_types.specs.Tables.{Declaration};
    ghost use Rattle.sz_types.specs.Code.{declaration_code};
    ghost use Rattle.sz_types.specs.SeenTables.{seen_table};

    ghost Value = { Declaration };

    ghost coded = { declaration_code };

    ghost view = { λ of. seen_table of.table };
}

impl Seen<TableData> for TableDecl {
    ghost use Rattle.sz_types.specs.SeenTables.{seen_table};

    ghost seen = { seen_table };
}
