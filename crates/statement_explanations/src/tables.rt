//! What is told of the tables of a statement.

ghost use Rattle.std.specs.Prelude.{◌≡◌, map, IfOk};
ghost use Rattle.expressions.specs.Rows.{names_of};
ghost use Rattle.descriptions.specs.Descriptions.{AreItsRoles};
ghost use Rattle.key_ranges.specs.BoxCode.{role_names};
ghost use Rattle.row_statements.specs.Users.{roles_of};
ghost use Rattle.statement_explanations.specs.Explanations.{AreTablesExplained, IsTableExplained};

use crate::asking::{action_of, conditions_of, reads_too, role_set};
use crate::conditions::explain_conditions;
use crate::explanation::TableExplanation;
use crate::policies::PolicySearch;
use crate::reading::reading_of;
use catalogue::definitions::Catalogue;
use descriptions::policies::is_guarded;
use expressions::eval::Users;
use planner::Plan;
use row_statements::RangedSource;
use sql_types::items::Items;
use sql_types::name::Name;
use std::alloc::{AllocError, Global};

/// A statement of which is told: its plan, made of this catalogue for this current role, and who acts.
#[derive(Clone, Copy)]
pub(crate) struct PlanExplainer<'a> {
    pub(crate) alloc: Global,
    pub(crate) catalogue: &'a Catalogue,
    pub(crate) current: &'a Name,
    pub(crate) users: &'a Users<'a>,
    pub(crate) plan: &'a Plan<'a>,
}

/// What is told of each table of a plan, which was made of this catalogue for this current role. These
/// are its tables with their ranges, as `planned_ranges` gives them. The only error is that memory was
/// refused.
pub fn explain_tables<'a>(
    alloc: Global,
    catalogue: &'a Catalogue,
    current: &'a Name,
    users: &'a Users<'a>,
    plan: &'a Plan<'a>,
    ranged: &'a [RangedSource<'a>],
) -> Result<Items<TableExplanation<'a>>, AllocError>
    requires roles { AreItsRoles catalogue.now.memberships current.now (roles_of plan.now) }
    requires users { (names_of users.now).current ≡ current.now }
    ensures { IfOk result (AreTablesExplained catalogue.now (names_of users.now) (role_names users.now) plan.now 0
        (map (λ r. r.source.now) ranged.now) (map (λ r. r.range) ranged.now)) }
{
    let explainer = PlanExplainer {
        alloc,
        catalogue,
        current,
        users,
        plan,
    };
    explainer.tables(ranged)
}

impl<'a> PlanExplainer<'a> {
    // What is told of each of these tables.
    fn tables(
        &self,
        ranged: &'a [RangedSource<'a>],
    ) -> Result<Items<TableExplanation<'a>>, AllocError>
        requires roles { AreItsRoles self.now.catalogue.now.memberships self.now.current.now (roles_of self.now.plan.now) }
        requires users { (names_of self.now.users.now).current ≡ self.now.current.now }
        ensures { IfOk result (AreTablesExplained self.now.catalogue.now (names_of self.now.users.now)
            (role_names self.now.users.now) self.now.plan.now 0
            (map (λ r. r.source.now) ranged.now) (map (λ r. r.range) ranged.now)) }
    {
        let mut told = Items::new(self.alloc);
        for (index, table) in ranged.iter().enumerate() {
            let explained = self.table(index, table)?;
            told.push(explained)?;
        }
        Ok(told)
    }

    // What is told of a table, which has this index in FROM.
    fn table(
        &self,
        index: usize,
        ranged: &'a RangedSource<'a>,
    ) -> Result<TableExplanation<'a>, AllocError>
        requires roles { AreItsRoles self.now.catalogue.now.memberships self.now.current.now (roles_of self.now.plan.now) }
        requires users { (names_of self.now.users.now).current ≡ self.now.current.now }
        ensures { IfOk result (IsTableExplained self.now.catalogue.now (names_of self.now.users.now)
            (role_names self.now.users.now) self.now.plan.now index ranged.now.source.now ranged.now.range) }
    {
        let (table, plan) = (ranged.source.table, self.plan);
        let roles = role_set(plan);
        let is_guarded = is_guarded(self.catalogue, roles, self.current, table);
        let search = PolicySearch {
            alloc: self.alloc,
            table,
            roles,
            users: self.users,
        };
        let policies = search.explain(
            table.policies(),
            is_guarded,
            action_of(plan),
            reads_too(plan),
        )?;
        let conditions = explain_conditions(
            self.alloc,
            table,
            index,
            conditions_of(plan),
            self.users,
        )?;
        Ok(TableExplanation {
            table,
            is_guarded,
            policies,
            conditions,
            reading: reading_of(plan, self.users, index, ranged),
        })
    }
}
