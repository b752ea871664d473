//! The checks of new rows: row security, nulls, sizes.
ghost use Rattle.std.specs.Prelude.{◌≡◌, OnOk, map};
ghost use Rattle.std.specs.List.{AllByRecursion, list_all};
ghost use Rattle.sql_ast.specs.Rows.{KeepsLimits, fits_record};
ghost use Rattle.sql_types.specs.Value.{owned};
ghost use Rattle.expressions.specs.Operators.{is_null};
ghost use Rattle.abstract_database.specs.Changes.{is_admitted, keeps_not_null};
ghost use Rattle.table_rows.specs.Targets.{admits};
ghost use Rattle.table_rows.specs.NewRows.{all_admitted, new_rows_checked};
ghost use Rattle.table_rows.specs.Setting.{admitted_if, nothing_checked, with_checked, verdict};

use crate::target::Target;
use row_codec::{LentRow, fits_record};
use sql_ast::columns::{Column, Columns};
use sql_types::state::SqlState;
use sql_types::value::ValueRef;

/// Checks new rows of a table, each check over all of them before the next. `InsufficientPrivilege`
/// where row security does not admit one, or what its evaluation fails with; `NotNullViolation`
/// where one has a null in a column that is NOT NULL; `ProgramLimitExceeded` where the key of one
/// takes more than 200 bytes or its other columns more than 1,200.
pub(crate) fn check_new_rows(target: &Target<'_>, rows: &[LentRow<'_>]) -> Result<(), SqlState>
    ensures checked { result
        ≡ new_rows_checked target.now.columns.now (admits target.now) rows.now }
    ensures limits { OnOk result (AllByRecursion (KeepsLimits target.now.columns.now) rows.now) }
{
    check_admitted(target, rows)?;
    if !keep_not_null(target.columns.as_slice(), rows) {
        return Err(SqlState::NotNullViolation);
    }
    if !fit_records(target.columns, rows) {
        return Err(SqlState::ProgramLimitExceeded);
    }
    Ok(())
}

fn check_admitted(target: &Target<'_>, rows: &[LentRow<'_>]) -> Result<(), SqlState>
    ensures { result ≡ all_admitted (admits target.now) rows.now }
{
    for row in rows {
        check_one_admitted(target, row)?;
    }
    Ok(())
}

/// What the checks say of the new rows so far, each stage by itself, so that one row after the other
/// may be checked.
#[derive(Drop)]
pub struct Checks {
    /// What the guard says: the refusal of the first row that it does not admit.
    admitted: Result<(), SqlState>,
    /// Whether no row has a null where none may be.
    not_null: bool,
    /// Whether each row keeps to the limits.
    fit: bool,
}

impl Checks {
    /// Of no rows.
    pub(crate) fn new() -> Checks
        ensures { result ≡ nothing_checked }
    {
        Checks {
            admitted: Ok(()),
            not_null: true,
            fit: true,
        }
    }

    /// Checks one more row.
    pub(crate) fn take(
        &mut self,
        target: &Target<'_>,
        columns: &Columns,
        row: &LentRow<'_>,
        fits: bool,
    )
        requires { fits ≡ fits_record columns.now row.now }
        ensures { self.new ≡ with_checked columns.now (admits target.now) row.now self.old }
    {
        if self.admitted.is_ok() {
            self.admitted = check_one_admitted(target, row);
        }
        self.not_null = self.not_null && keeps_not_null(columns.as_slice(), row.as_slice());
        self.fit = self.fit && fits;
    }

    /// What [`check_new_rows`] answers of the rows that were checked: the refusal of the first stage
    /// that refuses one.
    pub(crate) fn verdict(&self) -> Result<(), SqlState>
        ensures { result ≡ verdict self.now }
    {
        if let Err(code) = self.admitted {
            return Err(code);
        }
        if !self.not_null {
            return Err(SqlState::NotNullViolation);
        }
        if !self.fit {
            return Err(SqlState::ProgramLimitExceeded);
        }
        Ok(())
    }
}

fn check_one_admitted(target: &Target<'_>, row: &LentRow<'_>) -> Result<(), SqlState>
    ensures { result ≡ is_admitted (admits target.now) row.now }
{
    required(target.guard.admits(row, target.users))
}

// The refusal of a row that the guard does not admit.
fn required(admits: Result<bool, SqlState>) -> Result<(), SqlState>
    ensures { result ≡ admitted_if admits }
{
    match admits {
        Ok(true) => Ok(()),
        Ok(false) => Err(SqlState::InsufficientPrivilege),
        Err(code) => Err(code),
    }
}

// Whether no row has a null in a column that is NOT NULL.
fn keep_not_null(columns: &[Column], rows: &[LentRow<'_>]) -> bool
    ensures { result ≡ list_all (keeps_not_null columns.now) rows.now }
{
    rows.iter()
        .all(|row| keeps_not_null(columns, row.as_slice()))
}

fn keeps_not_null(columns: &[Column], row: &[ValueRef<'_>]) -> bool
    ensures { result ≡ keeps_not_null columns.now (map owned row.now) }
{
    match (columns.split_first(), row.split_first()) {
        (Some((column, columns)), Some((value, row))) => {
            !(column.not_null && is_null(*value)) && keeps_not_null(columns, row)
        }
        _ => true,
    }
}

fn is_null(value: ValueRef<'_>) -> bool
    ensures { result ≡ is_null (owned value.entry) }
{
    matches!(value, ValueRef::Null)
}

fn fit_records(columns: &Columns, rows: &[LentRow<'_>]) -> bool
    ensures { result ≡ list_all (fits_record columns.now) rows.now }
{
    rows.iter().all(|row| fits_record(columns, row))
}
