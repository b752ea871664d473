//! Laws of the statements on policies: what each makes is a change of the policy's table.
ghost use Rattle.std.specs.Prelude.{◌++◌, option_to_list};
ghost use Rattle.sql_ast.specs.declared.statement.CreatePolicy.{CreatePolicy};
ghost use Rattle.sql_ast.specs.declared.statement.DropPolicy.{DropPolicy};
ghost use Rattle.expressions.specs.Meaning.{UserNames};
ghost use Rattle.abstract_database.specs.Database.{Database};
ghost use Rattle.abstract_database.specs.Definitions.{policy_of};
ghost use Rattle.abstract_database.specs.Statements.{create_policy, drop_policy};
ghost use Rattle.abstract_database.specs.Whole.{Each};
ghost use Rattle.expr_parser.specs.Written.{IsAsWritten};
ghost use Rattle.stored_database.specs.Definitions.{TableDefinition, Definitions};
ghost use Rattle.stored_database.specs.Valid.{Describes};
ghost use Rattle.catalogue.specs.declared.change.SchemaChange.TheVariants as change;
ghost use Rattle.catalogue_changes.specs.StatementChanges.{IsDoneBy, IsTableOf, with_one_policy, without_one_policy};

/// CREATE POLICY, whose conditions are what their texts are read as, puts its table with one policy
/// more.
pub fn policies_come_by_a_change()
    ensures { (d : Definitions) (db : Database) (users : UserNames) (s : CreatePolicy)
        (t : TableDefinition) → Describes d db → IsTableOf d s.table t
        → Each IsAsWritten (option_to_list s.using ++ option_to_list s.check)
        → IsDoneBy (change.PutTable (with_one_policy (policy_of s) t)) d db
        (create_policy db users s) }
{}

/// DROP POLICY puts its table without the policy.
pub fn policies_go_by_a_change()
    ensures { (d : Definitions) (db : Database) (users : UserNames) (s : DropPolicy)
        (t : TableDefinition) → Describes d db → IsTableOf d s.table t
        → IsDoneBy (change.PutTable (without_one_policy s.policy t)) d db
        (drop_policy db users s) }
{}
