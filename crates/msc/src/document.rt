// A document: tables that hold a well-formed one.
ghost use Rattle.std.specs.Prelude.{◌≡◌, true};
ghost use Rattle.msc.specs.Sound.{well_formed};
ghost use Rattle.msc.specs.Stored.{doc_of};

use crate::tables::Tables;

#[derive(Drop)]
pub struct Document {
    pub tables: Tables,
    ghost sound: { well_formed (doc_of tables) ≡ true },
}
