//! Laws of the lists that are put together table by table: what is said of one table is found in
//! the list of all tables.

ghost use Rattle.std.specs.Prelude.{◌≡◌, filter, bytes_eq};
ghost use Rattle.abstract_database.specs.Lists.{Among};
ghost use Rattle.stored_database.specs.Definitions.{TableDefinition, Definitions, descriptors_of, policies_of};
ghost use Rattle.stored_database.specs.Valid.{AreValid};

/// The privilege descriptors and the policies that name a table are those of its definition.
pub fn parts_are_found_by_name()
    ensures descriptors { (d : Definitions) → AreValid d → (t : TableDefinition)
        → Among t d.tables
        → filter (λ e. bytes_eq e.table t.definition.name) (descriptors_of d.tables)
        ≡ t.descriptors }
    ensures policies { (d : Definitions) → AreValid d → (t : TableDefinition) → Among t d.tables
        → filter (λ p. bytes_eq p.table t.definition.name) (policies_of d.tables)
        ≡ t.policies }
{}
