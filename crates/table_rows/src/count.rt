//! How many rows a table has, by its keys alone.
ghost use Rattle.std.specs.Prelude.{Ok};
ghost use Rattle.store.specs.Records.{entries_where, has_prefix};
ghost use Rattle.store.specs.StatementError.{ReadsMap};
ghost use Rattle.store.specs.Walks.{count_to};
ghost use Rattle.row_codec.specs.Rows.{row_prefix};
ghost use Rattle.table_rows.specs.Costs.{walk_cost};
ghost use Rattle.table_rows.specs.Failures.{Answers};

use crate::visit::table_prefix;
use std::alloc::Global;
use store::{Map, StatementError};

/// How many rows the table of this number has, or `most` where they are as many or more: what it takes to tell whether they
/// are fewer than so many. No value is read. The failures are Memory and Device.
pub fn count_rows_to<M: Map>(
    alloc: Global,
    records: &mut M,
    table: u32,
    most: u64,
) -> Result<u64, StatementError>
    ensures preserved { M.preserved records.old records.new }
    ensures reads { ReadsMap result (M.state records.old) (M.state records.new) }
    ensures cost { (M.state records.old).sound → M.cost records.old records.new (walk_cost 1
        (entries_where (has_prefix (row_prefix table)) (M.state records.old).map)) }
    ensures counts { (M.state records.old).sound → Answers result
        (Ok (count_to most (entries_where (has_prefix (row_prefix table)) (M.state records.old).map))) }
{
    let prefix = table_prefix(alloc, table)?;
    let all = prefix.as_slice();
    let count = records.count_to(all, all, most)?;
    Ok(count)
}
