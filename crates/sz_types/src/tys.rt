//! Lists of types.
use crate::ty::Ty;
use std::marker::Model;
use sz_list::{Seen, SeenItems};

/// A list of types. Contracts see the list of their plain data.
pub type Tys = SeenItems<Ty, TyData>;

/// A type that is its plain data in contracts. Lists of types name it, and no code makes one.
#[derive(Debug)]
pub struct TyData {
    ty: Ty,
}

impl Model for TyData {
    ghost use Rattle.sz_types.specs.Data.{Shape};
    ghost use Rattle.sz_types.specs.Code.{shape_code};
    ghost use Rattle.sz_types.specs.Seen.{seen};

    ghost Value = { Shape };

    ghost coded = { shape_code };

    ghost view = { λ of. seen of.ty };
}

impl Seen<TyData> for Ty {
    ghost use Rattle.sz_types.specs.Seen.{seen as seen_ty};

    ghost seen = { seen_ty };
}
