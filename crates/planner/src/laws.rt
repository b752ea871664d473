//! Laws of plans: what calls over rows want of them. Each function does nothing; its clause is
//! proved.
ghost use Rattle.planner.specs.Fitting.{NamedTablesHaveLayouts, QueriesFitCombinations, QueriesFitRows, QueriesFitProducts, InsertsFit, UpdatesFit};

/// In a valid catalogue the table of a plan has the columns and the key of a table.
pub fn named_tables_have_layouts()
    ensures { NamedTablesHaveLayouts }
{}

/// One row of each table of a SELECT, which that table may hold, is as the types of its query say.
pub fn queries_fit_combinations()
    ensures { QueriesFitCombinations }
{}

/// So are the rows of the table of a SELECT over one.
pub fn queries_fit_rows()
    ensures { QueriesFitRows }
{}

/// So are all combinations of the rows of the tables of a SELECT.
pub fn queries_fit_products()
    ensures { QueriesFitProducts }
{}

/// The values of an INSERT that a text was read as make rows that its table may hold, where they
/// have no null that may not be and are not too large.
pub fn inserts_fit()
    ensures { InsertsFit }
{}

/// The new values of an UPDATE that a text was read as make such rows of those that its table holds.
pub fn updates_fit()
    ensures { UpdatesFit }
{}
