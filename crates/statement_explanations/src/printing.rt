//! An explanation as text in columns, and as JSON.

use crate::explanation::{
    Bounding, ConditionExplanation, PolicyExplanation, TableExplanation, TableReading,
};
use crate::expression_text::ExpressionWriter;
use crate::key_text::{is_no_key, range_texts};
use crate::literal_text::push_name;
use description_texts::json::render_json;
use description_texts::section::{Cell, Section};
use description_texts::text::render_text;
use key_ranges::KeyRange;
use sql_ast::policy::{PolicyClause, PolicyKind};
use sql_ast::privilege::Action;
use sql_ast::scope::ScopeTable;
use std::alloc::{AllocError, Global};

/// A statement that is explained: what it is, and who runs it.
#[derive(Clone, Copy)]
pub(crate) struct Heading<'a> {
    pub(crate) action: Action,
    pub(crate) role: &'a str,
    pub(crate) session: &'a str,
}

/// The texts that are made of what is told of a table.
#[derive(Drop)]
pub(crate) struct TableTexts {
    key: String,
    reading: String,
    reason: Option<String>,
    ranges: Vec<String>,
    conditions: Vec<String>,
}

/// The explanation of a statement, whose tables have these names there, as text in columns or as JSON.
pub(crate) fn print_explanation(
    alloc: Global,
    heading: Heading<'_>,
    told: &[TableExplanation<'_>],
    names: &[ScopeTable<'_>],
    json: bool,
) -> Result<String, AllocError> {
    let writer = ExpressionWriter {
        alloc,
        tables: names,
    };
    let texts = all_texts(alloc, told, &writer)?;
    let printed = PrintedTables {
        alloc,
        told,
        names,
        texts: texts.as_slice(),
    };
    let sections = printed.sections(heading)?;
    if json {
        render_json(alloc, sections.as_slice())
    } else {
        render_text(alloc, sections.as_slice())
    }
}

// The texts of each table.
fn all_texts(
    alloc: Global,
    told: &[TableExplanation<'_>],
    writer: &ExpressionWriter<'_>,
) -> Result<Vec<TableTexts>, AllocError> {
    let mut texts = Vec::new(alloc);
    for table in told {
        texts.push(table_texts(alloc, table, writer)?)?;
    }
    Ok(texts)
}

fn table_texts(
    alloc: Global,
    told: &TableExplanation<'_>,
    writer: &ExpressionWriter<'_>,
) -> Result<TableTexts, AllocError> {
    let conditions = condition_texts(alloc, told.conditions.as_slice(), writer)?;
    let ranges = match told.reading.range() {
        Some(range) => range_texts(alloc, told.table, range)?,
        None => Vec::new(alloc),
    };
    Ok(TableTexts {
        key: key_columns(alloc, told)?,
        reading: reading_text(alloc, told)?,
        reason: reason_text(alloc, told, conditions.as_slice())?,
        ranges,
        conditions,
    })
}

// The names of the columns of the key.
fn key_columns(alloc: Global, told: &TableExplanation<'_>) -> Result<String, AllocError> {
    let columns = told.table.columns();
    let mut out = String::new(alloc);
    for index in columns.key() {
        if !out.is_empty() {
            out.push_str(", ")?;
        }
        if let Some(column) = columns.get(*index) {
            push_name(alloc, &mut out, column.name.as_str())?;
        }
    }
    Ok(out)
}

// How the rows of a table are looked for.
fn reading_text(alloc: Global, told: &TableExplanation<'_>) -> Result<String, AllocError> {
    let word = match told.reading {
        TableReading::Whole => "whole table",
        TableReading::BehindRows(_) => "look-ups behind rows",
        TableReading::NewKeys => "look-ups of new keys",
        TableReading::Within(KeyRange::Point(key)) => {
            if is_no_key(alloc, told.table, key.as_slice())? {
                "no key"
            } else {
                "look-up"
            }
        }
        TableReading::Within(KeyRange::Span { start: _, stop: _ }) => "span",
        TableReading::Within(KeyRange::Several(spans)) => {
            let count = spans.as_slice().len();
            return format!(in alloc; "{count} spans");
        }
    };
    String::from_str(alloc, word)
}

// Why all rows of a table are read: the first condition behind which nothing bounds, or that there is no
// bound.
fn reason_text(
    alloc: Global,
    told: &TableExplanation<'_>,
    conditions: &[String],
) -> Result<Option<String>, AllocError> {
    match told.reading {
        TableReading::Whole => {}
        TableReading::Within(_) | TableReading::BehindRows(_) | TableReading::NewKeys => {
            return Ok(None);
        }
    }
    let first = first_key_column(alloc, told)?;
    let first = first.as_str();
    if let Some(name) = first_failing_policy(told.policies.as_slice()) {
        let text = format!(in alloc;
            "nothing bounds {first} behind policy {name}, which may fail"
        )?;
        return Ok(Some(text));
    }
    let text = match first_failing_condition(told.conditions.as_slice(), conditions) {
        Some(condition) => {
            format!(in alloc; "nothing bounds {first} behind {condition}, which may fail")?
        }
        None => format!(in alloc; "nothing bounds {first}")?,
    };
    Ok(Some(text))
}

// The name of the first column of the key.
fn first_key_column(alloc: Global, told: &TableExplanation<'_>) -> Result<String, AllocError> {
    let columns = told.table.columns();
    let mut out = String::new(alloc);
    if let Some(index) = columns.key().first() {
        if let Some(column) = columns.get(*index) {
            push_name(alloc, &mut out, column.name.as_str())?;
        }
    }
    Ok(out)
}

// The name of the first policy that may fail.
fn first_failing_policy<'a>(policies: &[PolicyExplanation<'a>]) -> Option<&'a str> {
    for told in policies {
        if told.bounding.may_fail {
            return Some(told.policy.policy.name.as_str());
        }
    }
    None
}

// The text of the first condition that may fail.
fn first_failing_condition<'a>(
    conditions: &[ConditionExplanation<'_>],
    texts: &'a [String],
) -> Option<&'a str> {
    for (told, text) in conditions.iter().zip(texts) {
        if told.bounding.may_fail {
            return Some(text.as_str());
        }
    }
    None
}

fn condition_texts(
    alloc: Global,
    conditions: &[ConditionExplanation<'_>],
    writer: &ExpressionWriter<'_>,
) -> Result<Vec<String>, AllocError> {
    let mut texts = Vec::new(alloc);
    for told in conditions {
        let mut text = String::new(alloc);
        writer.push(&mut text, told.condition.tree())?;
        texts.push(text)?;
    }
    Ok(texts)
}

// The tables of an explanation, with their names in the statement and their texts.
#[derive(Clone, Copy)]
struct PrintedTables<'a> {
    alloc: Global,
    told: &'a [TableExplanation<'a>],
    names: &'a [ScopeTable<'a>],
    texts: &'a [TableTexts],
}

impl<'a> PrintedTables<'a> {
    fn sections(&self, heading: Heading<'a>) -> Result<Vec<Section<'a>>, AllocError> {
        let mut sections = Vec::new(self.alloc);
        sections.push(statement_section(self.alloc, heading)?)?;
        sections.push(self.table_section()?)?;
        sections.push(self.range_section()?)?;
        sections.push(self.condition_section()?)?;
        Ok(sections)
    }

    fn table_section(&self) -> Result<Section<'a>, AllocError> {
        let mut section = Section::new(
            self.alloc,
            "tables",
            &["name", "table", "key", "guarded", "reading", "why"],
        );
        for (index, told) in self.told.iter().enumerate() {
            let Some(text) = self.texts.get(index) else {
                return Ok(section);
            };
            section.push(vec![in self.alloc;
                self.name(index),
                Cell::Text(told.table.name().as_str()),
                Cell::Text(text.key.as_str()),
                Cell::Flag(told.is_guarded),
                Cell::Text(text.reading.as_str()),
                text_cell(&text.reason),
            ]?)?;
        }
        Ok(section)
    }

    fn range_section(&self) -> Result<Section<'a>, AllocError> {
        let mut section = Section::new(self.alloc, "ranges", &["name", "keys"]);
        for (index, text) in self.texts.iter().enumerate() {
            for range in text.ranges.as_slice() {
                section.push(vec![in self.alloc; self.name(index), Cell::Text(range.as_str())]?)?;
            }
        }
        Ok(section)
    }

    fn condition_section(&self) -> Result<Section<'a>, AllocError> {
        let mut section = Section::new(
            self.alloc,
            "conditions",
            &[
                "name",
                "policy",
                "command",
                "kind",
                "condition",
                "bounds",
                "may fail",
            ],
        );
        for (index, told) in self.told.iter().enumerate() {
            self.push_policies(&mut section, index, told)?;
            self.push_conditions(&mut section, index, told)?;
        }
        Ok(section)
    }

    // Adds the policies of a table, in the order in which they are asked.
    fn push_policies(
        &self,
        section: &mut Section<'a>,
        index: usize,
        told: &'a TableExplanation<'a>,
    ) -> Result<(), AllocError> {
        for asked in told.policies.as_slice() {
            let policy = &asked.policy.policy;
            section.push(vec![in self.alloc;
                self.name(index),
                Cell::Text(policy.name.as_str()),
                Cell::Text(action_word(asked.action)),
                Cell::Text(kind_word(policy.kind)),
                clause_cell(asked),
                bounds_cell(told.reading, asked.bounding),
                Cell::Flag(asked.bounding.may_fail),
            ]?)?;
        }
        Ok(())
    }

    // Adds the conditions of the statement, in the order in which they are asked.
    fn push_conditions(
        &self,
        section: &mut Section<'a>,
        index: usize,
        told: &'a TableExplanation<'a>,
    ) -> Result<(), AllocError> {
        let Some(texts) = self.texts.get(index) else {
            return Ok(());
        };
        for (asked, text) in told
            .conditions
            .as_slice()
            .iter()
            .zip(texts.conditions.as_slice())
        {
            section.push(vec![in self.alloc;
                self.name(index),
                Cell::Absent,
                Cell::Absent,
                Cell::Absent,
                Cell::Text(text.as_str()),
                Cell::Flag(asked.bounding.bounds),
                Cell::Flag(asked.bounding.may_fail),
            ]?)?;
        }
        Ok(())
    }

    // The name of a table in the statement.
    fn name(&self, index: usize) -> Cell<'a> {
        match self.names.get(index) {
            Some(table) => Cell::Text(table.name.as_str()),
            None => Cell::Absent,
        }
    }
}

fn statement_section<'a>(alloc: Global, heading: Heading<'a>) -> Result<Section<'a>, AllocError> {
    let mut section = Section::new(alloc, "statement", &["command", "role", "session"]);
    section.push(vec![in alloc;
        Cell::Text(action_word(heading.action)),
        Cell::Text(heading.role),
        Cell::Text(heading.session),
    ]?)?;
    Ok(section)
}

// A text, if there is one.
fn text_cell(text: &Option<String>) -> Cell<'_> {
    match text {
        Some(text) => Cell::Text(text.as_str()),
        None => Cell::Absent,
    }
}

// Whether a policy bounds the first column of the key: nothing is said of one for new rows.
fn bounds_cell<'a>(reading: TableReading<'_>, bounding: Bounding) -> Cell<'a> {
    match reading {
        TableReading::NewKeys => Cell::Absent,
        TableReading::Whole | TableReading::Within(_) | TableReading::BehindRows(_) => {
            Cell::Flag(bounding.bounds)
        }
    }
}

// The condition of a policy as it was written: USING, and of an INSERT WITH CHECK, or USING where that is
// missing.
fn clause_cell<'a>(asked: &PolicyExplanation<'a>) -> Cell<'a> {
    let policy = &asked.policy.policy;
    match (asked.action, &policy.check) {
        (Action::Insert, Some(clause)) => Cell::Text(clause.text.as_str()),
        _ => using_cell(&policy.using),
    }
}

fn using_cell(clause: &Option<PolicyClause>) -> Cell<'_> {
    match clause {
        Some(clause) => Cell::Text(clause.text.as_str()),
        None => Cell::Absent,
    }
}

// An action as it is written.
fn action_word(action: Action) -> &'static str {
    match action {
        Action::Select => "SELECT",
        Action::Insert => "INSERT",
        Action::Update => "UPDATE",
        Action::Delete => "DELETE",
    }
}

// The kind of a policy as it is written.
fn kind_word(kind: PolicyKind) -> &'static str {
    match kind {
        PolicyKind::Permissive => "PERMISSIVE",
        PolicyKind::Restrictive => "RESTRICTIVE",
    }
}
