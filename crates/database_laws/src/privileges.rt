//! Laws of roles, privileges, GRANT and REVOKE.

ghost use Rattle.database_laws.specs.Privileges.{roles_by_chains, member_of_by_chains, descriptors_by_chains, privileges_by_descriptors, tables_cover_columns, some_column_is_a_privilege, what_is_left_is_supported, nothing_more_is_taken, nothing_is_added, refused_for_dependents};

/// What the definitions compute of roles and of descriptors is what chains lead to: a chain can be
/// cut to the length of the list. What they compute of privileges is what descriptors give. MEMBER OF
/// asks for a chain from the current role, for a superuser too.
pub fn chains_are_found()
    ensures roles { roles_by_chains }
    ensures member_of { member_of_by_chains }
    ensures descriptors { descriptors_by_chains }
    ensures privileges { privileges_by_descriptors }
{}

/// A privilege on a table is one on each of its columns (PostgreSQL manual, GRANT). An action on the
/// table or on some column of it is had just where a privilege with that action is.
pub fn columns_have_privileges()
    ensures covered { tables_cover_columns }
    ensures some_column { some_column_is_a_privilege }
{}

/// REVOKE leaves what is supported without the named descriptors, and nothing else (SQL:2016
/// Foundation, 12.7).
pub fn revoke_takes_what_is_abandoned()
    ensures supported { what_is_left_is_supported }
    ensures nothing_more { nothing_more_is_taken }
    ensures nothing_added { nothing_is_added }
    ensures refused { refused_for_dependents }
{}
