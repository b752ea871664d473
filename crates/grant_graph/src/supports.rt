//! Which descriptors are supported (SQL:2016 Foundation, 12.7).
ghost use Rattle.std.specs.Prelude.{◌≡◌, ◌↔◌, false, length, IfOk, OnOk, IsTrue};
ghost use Rattle.std.specs.List.{list_all};
ghost use Rattle.abstract_database.specs.Lists.{Among};
ghost use Rattle.abstract_database.specs.Privileges.{IsSupported, is_supported, without_named};
ghost use Rattle.sql_ast.specs.declared.privilege.Descriptor.{Descriptor as TheDescriptor};
ghost use Rattle.grant_graph.specs.Supports.{GivesRightOf, IsElementOf, AreFollowed, AreElementsOf, AreEitherOfFirst, MarkSupported, itself};

use crate::keys::{Right, action_number, grantee_role, grantor_role};
use reachability::{Element, reached_by_keys};
use sql_ast::privilege::{Descriptor, Grantor};
use std::alloc::{AllocError, Global};

/// The right that a descriptor gives to grant on, if any.
fn right_given(descriptor: &Descriptor) -> Option<Right<'_>>
    ensures { GivesRightOf descriptor.now result }
{
    match (descriptor.grantable, grantee_role(&descriptor.grantee)) {
        (true, Some(role)) => Some((
            Some(role),
            descriptor.table.as_str(),
            action_number(descriptor.action),
            descriptor.column,
        )),
        _ => None,
    }
}

/// A descriptor as an element: it starts chains where the system granted it, it waits for the right to grant it, on its column
/// or on the whole table, and it gives the right to grant on, but where it is named.
fn element(descriptor: &Descriptor, is_named: bool, on_table: bool) -> Element<Right<'_>>
    ensures { IsElementOf on_table descriptor.now is_named result }
{
    let column = if on_table { None } else { descriptor.column };
    let waits_for = (
        grantor_role(&descriptor.grantor),
        descriptor.table.as_str(),
        action_number(descriptor.action),
        column,
    );
    let gives = if is_named {
        None
    } else {
        right_given(descriptor)
    };
    Element {
        is_start: matches!(descriptor.grantor, Grantor::System),
        waits_for,
        gives,
    }
}

/// Adds each descriptor as an element, where those that have a mark are named.
fn add_elements<'a>(
    elements: &mut Vec<Element<Right<'a>>>,
    descriptors: &'a [Descriptor],
    named: &[bool],
    on_table: bool,
) -> Result<(), AllocError>
    requires { length named.now ≡ length descriptors.now }
    ensures { OnOk result (AreFollowed on_table (length descriptors.now) named.now descriptors.now elements.old.items elements.new.items) }
{
    for (index, descriptor) in descriptors.iter().enumerate() {
        elements.push(element(descriptor, named[index], on_table))?;
    }
    Ok(())
}

/// Each descriptor as two elements, where those that have a mark are named: it is supported by the right on its column, and by
/// that on the whole table.
fn elements<'a>(
    alloc: Global,
    descriptors: &'a [Descriptor],
    named: &[bool],
) -> Result<Vec<Element<Right<'a>>>, AllocError>
    requires { length named.now ≡ length descriptors.now }
    ensures { IfOk result (λ elements. AreElementsOf named.now descriptors.now elements.items) }
{
    let mut elements = Vec::new(alloc);
    add_elements(&mut elements, descriptors, named, false)?;
    add_elements(&mut elements, descriptors, named, true)?;
    Ok(elements)
}

/// Of each two marks whether one of them is set.
fn either(alloc: Global, own: &[bool], whole: &[bool]) -> Result<Vec<bool>, AllocError>
    requires { length whole.now ≡ length own.now }
    ensures { IfOk result (λ marks. AreEitherOfFirst (length own.now) own.now whole.now marks.items) }
{
    let mut marks = Vec::with_capacity(alloc, own.len())?;
    for index in 0..own.len() {
        let is_either = own[index] || whole[index];
        marks.push(is_either)?;
    }
    Ok(marks)
}

/// For each descriptor whether a chain of supports leads to it, where those that have a mark are named: without them, or
/// without their grant option.
pub(crate) fn reached(
    alloc: Global,
    descriptors: &[Descriptor],
    named: &[bool],
) -> Result<Vec<bool>, AllocError>
    requires { length named.now ≡ length descriptors.now }
    ensures { IfOk result (λ marks. MarkSupported named.now descriptors.now marks.items) }
{
    let elements = elements(alloc, descriptors, named)?;
    let marks = reached_by_keys(alloc, elements.as_slice())?;
    let (own, whole) = marks.as_slice().split_at(descriptors.len());
    either(alloc, own, whole)
}

/// Whether each of the marks is set.
fn are_all(marks: &[bool]) -> bool
    ensures { result ≡ list_all itself marks.now }
{
    marks.iter().all(|mark| *mark)
}

/// Whether each of the descriptors is supported: a finite chain of supports among them leads to it from one that the system
/// granted. Time and memory grow in proportion to the descriptors, as far as names hash apart.
pub fn all_supported(alloc: Global, descriptors: &[Descriptor]) -> Result<bool, AllocError>
    ensures chains { IfOk result (λ all. IsTrue all
        ↔ ((d : TheDescriptor) → Among d descriptors.now → IsSupported descriptors.now d)) }
    ensures test { IfOk result (λ all. all ≡ list_all (is_supported descriptors.now) descriptors.now) }
{
    let named = vec![in alloc; false; descriptors.len()]?;
    let marks = reached(alloc, descriptors, named.as_slice())?;
    Ok(are_all(marks.as_slice()))
}
