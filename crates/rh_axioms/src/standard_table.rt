//! The standard table.
ghost use Rattle.std.specs.Prelude.{◌≡◌};
ghost use Rattle.rh_axioms.specs.Rows.{all_schemas};

use crate::table::{Axiom, Table};

/// All the schemas in order.
pub fn standard() -> Table<24>
    ensures { result.rows ≡ all_schemas }
{
    Table {
        rows: [
            Axiom::A1,
            Axiom::A2,
            Axiom::A3,
            Axiom::A4,
            Axiom::A5,
            Axiom::A6,
            Axiom::A7,
            Axiom::A8,
            Axiom::A9,
            Axiom::A10,
            Axiom::A11,
            Axiom::A12,
            Axiom::A13,
            Axiom::A14,
            Axiom::A15,
            Axiom::A16,
            Axiom::A17,
            Axiom::A18,
            Axiom::A19,
            Axiom::A20,
            Axiom::A21,
            Axiom::A22,
            Axiom::A23,
            Axiom::A24,
        ],
    }
}
