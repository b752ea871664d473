//! The description of a database, or of one of its roles, as it is printed.

ghost use Rattle.std.specs.Prelude.{◌≡◌, find, option_copied, IfOk, IfSome, MatchOption};
ghost use Rattle.abstract_database.specs.Database.{is_role_named};
ghost use Rattle.description_texts.specs.Descriptions.{HasNone, HasAskedFor, asked_name};

use crate::database::database_sections;
use crate::json::render_json;
use crate::role::role_sections;
use crate::section::Section;
use crate::text::render_text;
use catalogue::definitions::Catalogue;
use sql_ast::role::Role;
use std::alloc::{AllocError, Global};

/// The description of a database, or of the role of a name, as text in columns or as JSON. `None`: no role has the name.
pub fn describe(
    alloc: Global,
    catalogue: &Catalogue,
    role: Option<&str>,
    json: bool,
) -> Result<Option<String>, AllocError>
    ensures { IfOk result (λ found. MatchOption found
        (HasNone catalogue.now.roles (asked_name role.entry))
        (λ text. HasAskedFor catalogue.now.roles (asked_name role.entry))) }
{
    let Some(role) = role else {
        let sections = database_sections(alloc, catalogue)?;
        return Ok(Some(render(alloc, sections.as_slice(), json)?));
    };
    let Some(found) = find_role(catalogue.roles(), role) else {
        return Ok(None);
    };
    match role_sections(alloc, catalogue, &found.name)? {
        Some(sections) => Ok(Some(render(alloc, sections.as_slice(), json)?)),
        None => Ok(None),
    }
}

// The role of a name, where there is one.
fn find_role<'a>(roles: &'a [Role], name: &str) -> Option<&'a Role>
    ensures found { option_copied result ≡ find (is_role_named name.now) roles.now }
    ensures named { IfSome result (λ role. role.now.name ≡ name.now) }
{
    roles.iter().find(|role| role.name.as_str() == name)
}

// The sections as text or as JSON.
fn render(alloc: Global, sections: &[Section<'_>], json: bool) -> Result<String, AllocError> {
    if json {
        render_json(alloc, sections)
    } else {
        render_text(alloc, sections)
    }
}
