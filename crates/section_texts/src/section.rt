//! Sections: what a description has of one kind, as rows under the names of their columns.

use crate::cell::SectionCell;

/// What a description has of one kind.
#[derive(Drop)]
pub struct TextSection<'a> {
    pub name: &'static str,
    /// The names of the columns: letters, digits and spaces alone.
    pub columns: &'static [&'static str],
    /// How many of the first columns say what a row is about: no two rows are alike in these.
    pub keys: usize,
    /// In each as many cells as there are columns.
    pub rows: Vec<Vec<SectionCell<'a>>>,
}

/// The sections of a description, in order.
pub type Sections<'a> = Vec<TextSection<'a>>;
