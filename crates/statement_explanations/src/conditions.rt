//! What conditions do for the keys in which rows are looked for.

ghost use Rattle.std.specs.Prelude.{◌≡◌, map, IfOk};
ghost use Rattle.expressions.specs.Rows.{names_of};
ghost use Rattle.key_ranges.specs.BoxCode.{role_names};
ghost use Rattle.statement_explanations.specs.Explanations.{bounding, condition_told, conditions_explained};

use crate::explanation::{Bounding, ConditionExplanation};
use catalogue::table::TableDefinition;
use expressions::eval::Users;
use expressions::infallible::is_infallible;
use expressions::types::Typed;
use key_ranges::table_range;
use sql_types::items::Items;
use std::alloc::{AllocError, Global};
use std::slice::from_ref;

/// What a condition does for the keys of a table, which has this index in FROM.
pub(crate) fn bounding_of(
    alloc: Global,
    table: &TableDefinition,
    index: usize,
    condition: &Typed,
    users: &Users<'_>,
) -> Result<Bounding, AllocError>
    ensures { IfOk result (λ found. found ≡ bounding table.now.id table.now.definition.layout
        (names_of users.now) (role_names users.now) index condition.now) }
{
    let columns = table.columns();
    let range = table_range(
        alloc,
        table.id(),
        columns,
        index,
        &[],
        from_ref(condition),
        users,
    )?;
    Ok(Bounding {
        bounds: range.is_some(),
        may_fail: !is_infallible(condition),
    })
}

/// The conditions of a statement, with what each does for the keys of a table, which has this index in
/// FROM.
pub(crate) fn explain_conditions<'a>(
    alloc: Global,
    table: &TableDefinition,
    index: usize,
    conditions: &'a [Typed],
    users: &Users<'_>,
) -> Result<Items<ConditionExplanation<'a>>, AllocError>
    ensures { IfOk result (λ told. map condition_told told
        ≡ conditions_explained table.now.id table.now.definition.layout
        (names_of users.now) (role_names users.now) index conditions.now) }
{
    let mut told = Items::new(alloc);
    for condition in conditions {
        let bounding = bounding_of(alloc, table, index, condition, users)?;
        told.push(ConditionExplanation {
            condition,
            bounding,
        })?;
    }
    Ok(told)
}
