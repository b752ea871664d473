//! What holds of statements with values.

ghost use Rattle.std.specs.Prelude.{◌≡◌, ℕ, List, Ok, Result, true};
ghost use Rattle.sql_types.specs.declared.value.Value.{Value};
ghost use Rattle.statement_parameters.specs.declared.fault.TemplateFault.{TemplateFault};
ghost use Rattle.statement_parameters.specs.declared.template.LabelledTemplate.{LabelledTemplate};
ghost use Rattle.statement_parameters.specs.Bindings.{IsBoundText};
ghost use Rattle.statement_parameters.specs.Masks.{is_plain, masked};
ghost use Rattle.statement_parameters.specs.Outside.{AgreeOutside, HaveLiteralsAlike, in_literals};
ghost use Rattle.statement_parameters.specs.Readings.{IsTemplateReading};
ghost use Rattle.statement_parameters.specs.Templates.{Fragment, parts_of};
ghost use Rattle.statement_parameters.specs.Written.{IsWrittenWith};

use select_labels::laws::labels_alone_are_left_out;
use sql_lexer::laws::one_lexing;

/// A value is a literal, whatever bytes it holds: the texts of a statement with values whose literals have as many tokens have the same
/// tokens, but for those of literals.
pub fn parameters_are_literals()
    ensures { (template : List Fragment) (values others : List Value) (text another : List ℕ) (one : IsBoundText template values text) (two : IsBoundText template others another)
        → HaveLiteralsAlike values others → AgreeOutside (in_literals values (parts_of template)) one.expected two.expected }
{}

/// A text without signs of parameters and without slashes is masked as it stands: its parts are its tokens, as the language has them.
pub fn plain_texts_stay()
    ensures { (text : List ℕ) → is_plain text ≡ true → masked text ≡ text }
{}

/// A written statement with values is a text whose tokens are those of the written text, less the labels of its columns, each parameter
/// replaced by the tokens of one literal, and no others: so neither a value nor a label is read as SQL, whatever it holds.
pub fn labels_and_values_add_no_token()
    ensures { (text : List ℕ) (read : LabelledTemplate) (values : List Value) (bound : List ℕ)
        → IsTemplateReading text (Ok read) → IsBoundText read.template values bound → IsWrittenWith text read.labels values bound }
{
    // For the proof: a text has one list of tokens.
    one_lexing();
    // For the proof: a text without its labels has the other tokens of the text.
    labels_alone_are_left_out();
}

/// A written statement is read in one way: it is one template with its labels, or has one fault.
pub fn one_reading()
    ensures { (text : List ℕ) (one two : Result LabelledTemplate TemplateFault)
        → IsTemplateReading text one → IsTemplateReading text two → one ≡ two }
{
    // For the proof: a text has one list of tokens.
    one_lexing();
}
