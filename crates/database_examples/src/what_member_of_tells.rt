//! MEMBER OF: whether the current role is in the role that a text names.

ghost use Rattle.database_examples.specs.WhatMemberOfTells.{names_of_roles, null_names_no_role, only_texts_name_roles, chains_of_roles, the_set_role_counts, superusers_are_in_their_own_roles, rows_of_ones_roles, each_statement_is_guarded, each_command_goes_by_the_set_role, beside_other_policies, what_it_reads, it_never_fails, memberships_of_a_block};

/// A role is in itself and in the roles that it is a member of, and in no other; a name is taken letter by letter.
pub fn names_of_roles()
    ensures { names_of_roles }
{}

/// Of null it is null.
pub fn null_names_no_role()
    ensures { null_names_no_role }
{}

/// Its operand is a text, and it is a truth.
pub fn only_texts_name_roles()
    ensures { only_texts_name_roles }
{}

/// A chain of memberships counts as one, and each of its links is needed.
pub fn chains_of_roles()
    ensures { chains_of_roles }
{}

/// It speaks of the current role: of the set role and not of the login role.
pub fn the_set_role_counts()
    ensures { the_set_role_counts }
{}

/// A superuser is in its own roles alone, and a member of a superuser in no more.
pub fn superusers_are_in_their_own_roles()
    ensures { superusers_are_in_their_own_roles }
{}

/// A policy by MEMBER OF shows each the rows of its roles, from the GRANT of a role to its REVOKE.
pub fn rows_of_ones_roles()
    ensures { rows_of_ones_roles }
{}

/// Such a policy guards the rows that are read, the new ones and the old ones of each statement.
pub fn each_statement_is_guarded()
    ensures { each_statement_is_guarded }
{}

/// Under a set role it goes by that role: in what is read, in new rows, in values that are assigned and in what is deleted.
pub fn each_command_goes_by_the_set_role()
    ensures { each_command_goes_by_the_set_role }
{}

/// Beside other policies: a restrictive one, and a condition on new rows.
pub fn beside_other_policies()
    ensures { beside_other_policies }
{}

/// Of a column it reads the column, and of a constant nothing.
pub fn what_it_reads()
    ensures { what_it_reads }
{}

/// It never fails itself, and stands where it is taken in the order of operands.
pub fn it_never_fails()
    ensures { it_never_fails }
{}

/// A block goes by its own memberships, and every other session by the committed ones.
pub fn memberships_of_a_block()
    ensures { memberships_of_a_block }
{}
