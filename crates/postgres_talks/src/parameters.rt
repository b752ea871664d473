//! Statements with parameters that are kept under a name.

use sql_types::items::Items;
use sql_types::name::Name;
use sql_types::try_copy::TryCopy;
use statement_parameters::template::Template;
use statement_parameters::types::ParameterType;
use std::alloc::{AllocError, Global};

/// A statement with parameters without the labels of its columns, those labels, and the type of each parameter, in the order of
/// their numbers.
#[derive(Drop)]
pub struct TypedTemplate {
    pub template: Template,
    /// For each column its label, if it has one; those behind the last have none.
    pub labels: Items<Option<Name>>,
    pub types: Items<ParameterType>,
}

impl TryCopy for TypedTemplate {
    fn try_copy(&self, alloc: Global) -> Result<TypedTemplate, AllocError> {
        Ok(TypedTemplate {
            template: self.template.try_copy(alloc)?,
            labels: self.labels.try_copy(alloc)?,
            types: self.types.try_copy(alloc)?,
        })
    }
}
