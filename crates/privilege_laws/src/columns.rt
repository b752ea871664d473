//! Laws of columns that a role may not read.

ghost use Rattle.privilege_laws.specs.HiddenColumns.{hidden_columns_tell_no_select, hidden_columns_tell_sizes_alone};
ghost use Rattle.privilege_laws.specs.ColumnRuns.{runs_beside_hidden_columns, parts_beside_hidden_columns};
ghost use Rattle.privilege_laws.specs.HiddenPay.{PayIsHidden, PolicyTellsPay, KeyTellsPay};

/// A SELECT over two databases of the same definitions, whose rows are the same but for columns that its role
/// may not read, is answered the same by both, or refused with one code, without exception. The role has
/// SELECT neither on such a column nor on its table, and no policy for the role names it in USING.
pub fn hidden_columns_tell_no_select()
    ensures { hidden_columns_tell_no_select }
{}

/// So is each statement over rows, if no such column is of its table's key, and no policy for the role names it
/// in WITH CHECK either; and what it leaves is the same again but for such columns. But an UPDATE may be refused
/// for the size of a row (54000) over one of both alone.
pub fn hidden_columns_tell_sizes_alone()
    ensures { hidden_columns_tell_sizes_alone }
{}

/// Runs of a tenant over machines that differ in columns hidden so from each pair of users that it acts as, with
/// whatever acts of others between them that keep all but these columns: they are told alike up to the first own
/// event that is refused for a size over one of them alone, to a definition of its own, or to the other exceptions
/// of `unreached_tables_tell_nothing`.
pub fn tenants_are_told_but_hidden_columns()
    ensures runs { runs_beside_hidden_columns }
    ensures parts { parts_beside_hidden_columns }
{}

/// Two databases meet the premises, and others break the laws. Over the first two a role with SELECT on the key
/// alone is told the key, and no pay; so are runs over machines of them. Where a policy names the pay, the same SELECT tells it, though the role may
/// not read it. Where the pay is the key, an INSERT tells it by 23505.
pub fn policies_and_keys_tell_hidden_columns()
    ensures alike { PayIsHidden }
    ensures policies { PolicyTellsPay }
    ensures keys { KeyTellsPay }
{}
