//! Laws of catalogues: valid definitions are those of a catalogue, a bound condition means what its
//! clause does, and what is found in a catalogue is what the database has by this name.

ghost use Rattle.std.specs.Prelude.{◌≡◌, ℕ, List, [], ◌∷◌, find, length};
ghost use Rattle.std.specs.List.{list_any};
ghost use Rattle.std.specs.Option.{option_map};
ghost use Rattle.sql_types.specs.Row.{Row};
ghost use Rattle.sql_ast.specs.declared.policy.Policy.{Policy};
ghost use Rattle.sql_ast.specs.declared.policy.PolicyClause.{PolicyClause};
ghost use Rattle.expressions.specs.Meaning.{UserNames};
ghost use Rattle.expressions.specs.Types.{TypedTerm};
ghost use Rattle.abstract_database.specs.Lists.{TheName, Among};
ghost use Rattle.abstract_database.specs.Database.{TableOf, definition_named, is_policy_named};
ghost use Rattle.abstract_database.specs.Expressions.{bound_value, own_scope, value_on};
ghost use Rattle.abstract_database.specs.Whole.{Each};
ghost use Rattle.stored_database.specs.Definitions.{TableDefinition, Definitions, database_with, policies_of};
ghost use Rattle.stored_database.specs.Valid.{AreValid};
ghost use Rattle.catalogue.specs.Catalogues.{AreInOrder};
ghost use Rattle.catalogue.specs.Lookups.{is_definition_named};
ghost use Rattle.catalogue.specs.Policies.{IsBoundClause, HasConditions};
ghost use Rattle.catalogue.specs.Tables.{HasOrderedParts, table_scope};

/// Valid definitions are in the order of a catalogue, and so is what each of their tables has; the
/// clauses of their policies can be bound.
pub fn valid_definitions_are_those_of_a_catalogue()
    ensures order { (d : Definitions) → AreValid d → AreInOrder d }
    ensures parts { (d : Definitions) → AreValid d → Each HasOrderedParts d.tables }
    ensures conditions { (d : Definitions) (t : TableDefinition) (p : Policy) → AreValid d
        → Among t d.tables → Among p t.policies → HasConditions (table_scope t.definition) p }
{}

/// A condition that is bound to the columns of a table has on each row of it, for all users, the
/// outcome of its clause; and a clause is bound in one way.
pub fn bound_conditions_mean_their_clauses()
    ensures outcome { (t : TableOf) (c : PolicyClause) (e : TypedTerm)
        → IsBoundClause (table_scope t) c e → (users : UserNames) (row : Row)
        → bound_value users (row ∷ []) e.term
        ≡ value_on (own_scope t) users (row ∷ []) c.expression }
    ensures one { (t : TableOf) (c : PolicyClause) (e f : TypedTerm)
        → IsBoundClause (table_scope t) c e → IsBoundClause (table_scope t) c f → e ≡ f }
{}

/// The table that definitions have by a name is the one that each database of these definitions has
/// by it, and the policies of a table are those of the database that name it.
pub fn tables_and_policies_are_found_by_name()
    ensures table { (d : Definitions) (rows : List (List Row)) (name : TheName)
        → length rows ≡ length d.tables
        → definition_named (database_with d rows) name
        ≡ option_map (λ t. t.definition) (find (is_definition_named name) d.tables) }
    ensures policy { (d : Definitions) (t : TableDefinition) (name : TheName) → AreValid d
        → Among t d.tables
        → list_any (is_policy_named t.definition.name name) (policies_of d.tables)
        ≡ list_any (is_policy_named t.definition.name name) t.policies }
{}
