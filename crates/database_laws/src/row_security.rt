//! Laws of whom row security concerns.

ghost use Rattle.database_laws.specs.RowSecurity.{superusers_are_spared, bypassing_roles_are_spared, owners_are_spared, tables_without_it_are_open, others_are_guarded};

/// Row security spares superusers and roles with BYPASSRLS, forced or not, and where it is not forced
/// also the roles that are in the owner. From each other role it guards a table that has it enabled
/// (PostgreSQL manual, 5.9, and ALTER TABLE).
pub fn row_security_concerns_the_others()
    ensures superusers { superusers_are_spared }
    ensures bypassing { bypassing_roles_are_spared }
    ensures owners { owners_are_spared }
    ensures disabled { tables_without_it_are_open }
    ensures others { others_are_guarded }
{}
