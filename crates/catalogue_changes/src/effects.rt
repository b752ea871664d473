//! What a statement that defines something comes to.

ghost use Rattle.std.specs.Prelude.{◌≡◌};
ghost use Rattle.catalogue_changes.specs.Defined.{effect_defined};

use catalogue::change::SchemaChange;
use catalogue::effect::Effect;
use sql_types::answer::Answer;
use sql_types::tag::Tag;
use sql_types::warning::Warning;
use store::Batch;

/// What a statement comes to that defines something: it is answered by its tag and its warning, if
/// there is one, and these are its changes of records and its change of the definitions.
pub fn defined(tag: Tag, warning: Option<Warning>, changes: Batch, change: SchemaChange) -> Effect
    ensures { result ≡ effect_defined tag warning changes change }
{
    Effect {
        answer: Answer::Done {
            tag,
            count: None,
            warning,
        },
        changes,
        schema: Some(change),
    }
}
