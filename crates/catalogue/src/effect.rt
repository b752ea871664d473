//! What a statement comes to.

use crate::change::SchemaChange;
use sql_types::answer::Answer;
use store::Batch;

/// What a statement that is carried out comes to: its answer, the changes of the records that its
/// session sees, and the change of the definitions, or `None` where they stay.
#[derive(Drop)]
pub struct Effect {
    pub answer: Answer,
    pub changes: Batch,
    pub schema: Option<SchemaChange>,
}
