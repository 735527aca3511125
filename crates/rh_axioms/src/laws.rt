//! The laws of the schemas.
ghost use Rattle.rh_axioms.specs.declared.table.Axiom.{Axiom};
ghost use Rattle.rh_axioms.specs.Laws.{HoldsInModels, TablesHold};

/// The instances of each schema are true in every model, and so are those of a table.
pub fn schemas_hold()
    ensures schemas { (schema : Axiom) → HoldsInModels schema }
    ensures tables { TablesHold }
{}
