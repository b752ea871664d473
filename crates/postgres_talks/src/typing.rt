//! How the types of parameters are found that a client has not declared.

ghost use Rattle.std.specs.Prelude.{◌≡◌, ◌+◌, ◌<◌, ◌^◌, [], IfOk, None, OnOk, length, suc};
ghost use Rattle.std.specs.Option.{option_copied};
ghost use Rattle.postgres_talks.specs.Outcomes.{description_outcome};
ghost use Rattle.postgres_talks.specs.Sayings.{Puts};
ghost use Rattle.postgres_talks.specs.Typing.{after_typing, asks_first, asks_of, asks_sample, begins_typing, candidate_behind, first_unknown, goes_on_typing, is_missing, keeps, new_template, next_candidate, refuses, said_behind, said_tried, said_typed, said_types, said_typing, sampled_piece, template_in, tries, typed, types_by, types_found, typing_outcome, unknown_from, unless_missing};

use crate::fault::TalkFault;
use crate::formats::ResultFormats;
use crate::moment::{TalkMoment, TalkStage};
use crate::named_pieces::NamedPiece;
use crate::outcome::{Outcome, description_outcome};
use crate::parameters::TypedTemplate;
use crate::piece::{LabelledText, StatementPiece};
use crate::said::Said;
use postgres_messages::backend::BackendMessage;
use sql_ast::description::StatementDescription;
use sql_types::items::Items;
use sql_types::name::Name;
use sql_types::state::SqlState;
use sql_types::text::Text;
use sql_types::try_copy::TryCopy;
use statement_parameters::samples::sample_text;
use statement_parameters::types::{ParameterKind, ParameterType};
use std::alloc::{AllocError, Global};
use talks::want::Want;

// The first index, of these types from an index on, whose type is to be found.
fn first_unknown(index: usize, types: &[ParameterType]) -> Option<usize>
    requires { index + length types.now < 2 ^ 64 }
    ensures { result ≡ first_unknown index types.now }
{
    let mut at = index;
    let mut rest = types;
    while let [first, others @ ..] = rest {
        if first.kind().is_none() {
            return Some(at);
        }
        at += 1;
        rest = others;
    }
    None
}

fn unknown_from(from: usize, types: &[ParameterType]) -> Option<usize>
    ensures { result ≡ unknown_from from types.now }
{
    if from < types.len() {
        first_unknown(from, &types[from..])
    } else {
        None
    }
}

fn unknown_behind(at: usize, types: &[ParameterType]) -> Option<usize>
    ensures { result ≡ unknown_from (suc at) types.now }
{
    if at < types.len() {
        unknown_from(at + 1, types)
    } else {
        None
    }
}

// A parameter is a text where one fits, as in PostgreSQL.
fn next_candidate(candidate: ParameterKind) -> Option<ParameterKind>
    ensures { result ≡ next_candidate candidate }
{
    match candidate {
        ParameterKind::Text => Some(ParameterKind::BigInt),
        ParameterKind::BigInt => Some(ParameterKind::Boolean),
        ParameterKind::Boolean => None,
    }
}

// The one behind a candidate that does not fit.
fn candidate_behind(
    at: usize,
    candidate: ParameterKind,
    types: &[ParameterType],
    description: &StatementDescription,
) -> Option<ParameterKind>
    ensures { result ≡ candidate_behind at candidate types.now description.now }
{
    match description {
        StatementDescription::Refused(SqlState::DatatypeMismatch) if at < types.len() => {
            next_candidate(candidate)
        }
        _ => None,
    }
}

// The template of what is kept under a name.
pub(crate) fn template_in(found: Option<&NamedPiece>) -> Option<&TypedTemplate>
    ensures { option_copied result ≡ template_in (option_copied found.entry) }
{
    match found {
        None => None,
        Some(entry) => entry.parameters.as_ref(),
    }
}

// Whether the parameter at an index, whose type is looked for, stands nowhere.
fn is_missing(at: usize, template: &TypedTemplate) -> bool
    ensures { result ≡ is_missing at template.now }
{
    at < template.types.len() && !template.template.has_parameter(at + 1)
}

// What comes of a sample: a parameter that stands nowhere has no type.
fn typing_outcome(
    at: usize,
    template: &TypedTemplate,
    description: &StatementDescription,
) -> Outcome
    ensures { result ≡ typing_outcome at template.now description.now }
{
    match description_outcome(&None, &[], description) {
        Outcome::Done if is_missing(at, template) => {
            Outcome::Refused(TalkFault::IndeterminateType)
        }
        outcome => outcome,
    }
}

// With a type at an index.
fn typed(at: usize, kind: ParameterKind, template: TypedTemplate) -> TypedTemplate
    ensures { result ≡ typed at kind template }
{
    let TypedTemplate {
        template,
        labels,
        types,
    } = template;
    let mut types = types.into_vec();
    if at < types.len() {
        types[at] = ParameterType::of_kind(kind);
    }
    TypedTemplate {
        template,
        labels,
        types: Items::from_vec(types),
    }
}

// The text with samples, by which a statement is described, and the labels of its columns.
fn sampled_piece(
    alloc: Global,
    labels: &Items<Option<Name>>,
    want: &Want,
    description: &StatementDescription,
) -> Result<StatementPiece, AllocError>
    ensures { IfOk result (λ piece. piece ≡ sampled_piece labels.now want.now description.now) }
{
    match (want, description) {
        (Want::Description { session: _, text }, StatementDescription::Rows(_)) => {
            let text = text.try_copy(alloc)?;
            let labels = labels.try_copy(alloc)?;
            Ok(StatementPiece::Select(LabelledText { text, labels }))
        }
        (Want::Description { session: _, text }, _) => {
            Ok(StatementPiece::Statement(text.try_copy(alloc)?))
        }
        _ => Ok(StatementPiece::Empty),
    }
}

impl TalkMoment {
    // What is refused is not kept.
    fn refuse_statement(&mut self, fault: TalkFault)
        ensures { self.new ≡ refuses fault self.old }
    {
        self.statements.remove(self.name.as_str());
        self.look(TalkStage::Refusing(fault));
    }

    fn ask_of(&mut self, alloc: Global, at: usize, candidate: ParameterKind, text: Option<Text>)
        ensures { self.new ≡ asks_of at candidate text self.old }
    {
        match text {
            None => self.refuse_statement(TalkFault::Refused(SqlState::ProgramLimitExceeded)),
            Some(text) => self.describe(
                TalkStage::Typing(at, candidate),
                LabelledText::bare(alloc, text),
            ),
        }
    }

    // Asks whether a candidate is the type of the parameter at an index; behind the last, whether the statement is one.
    fn ask_sample(
        &mut self,
        alloc: Global,
        at: usize,
        candidate: ParameterKind,
        template: &TypedTemplate,
    ) -> Result<(), AllocError>
        ensures { OnOk result (self.new ≡ asks_sample at candidate template.now self.old) }
    {
        let types = template.types.as_slice();
        let text = sample_text(alloc, &template.template, types, at, candidate)?;
        self.ask_of(alloc, at, candidate, text);
        Ok(())
    }

    // Keeps a statement with parameters, once it is known to be one.
    pub(crate) fn begin_typing(
        &mut self,
        alloc: Global,
        template: &TypedTemplate,
    ) -> Result<(), AllocError>
        ensures { OnOk result (self.new ≡ begins_typing template.now self.old) }
    {
        match unknown_from(0, template.types.as_slice()) {
            Some(at) => self.ask_sample(alloc, at, ParameterKind::Text, template),
            None => self.ask_sample(alloc, template.types.len(), ParameterKind::Text, template),
        }
    }

    // Keeps a statement by which the template is described.
    pub(crate) fn keep(
        &mut self,
        alloc: Global,
        piece: StatementPiece,
        template: TypedTemplate,
    ) -> Result<(), AllocError>
        ensures { OnOk result (self.new ≡ keeps piece template self.old) }
    {
        let name = self.name.try_copy(alloc)?;
        self.statements.put(NamedPiece {
            name,
            piece,
            columns: None,
            formats: ResultFormats::new(alloc),
            parameters: Some(template),
            rest: None,
        })
    }

    // Takes in whether the machine takes a sample.
    pub(crate) fn take_typing(
        &mut self,
        alloc: Global,
        at: usize,
        candidate: ParameterKind,
        description: &StatementDescription,
    ) -> Result<(), AllocError>
        ensures { OnOk result (self.new ≡ after_typing at candidate self.old description.now) }
    {
        match template_in(self.statements.find(self.name.as_str())) {
            None => {
                self.end();
                Ok(())
            }
            Some(found) => {
                let template = found.try_copy(alloc)?;
                self.try_type(alloc, at, candidate, template, description)
            }
        }
    }

    fn try_type(
        &mut self,
        alloc: Global,
        at: usize,
        candidate: ParameterKind,
        template: TypedTemplate,
        description: &StatementDescription,
    ) -> Result<(), AllocError>
        ensures { OnOk result (self.new ≡ tries (candidate_behind at candidate template.types description.now) at candidate template description.now self.old) }
    {
        match candidate_behind(at, candidate, template.types.as_slice(), description) {
            Some(next) => self.ask_sample(alloc, at, next, &template),
            None => self.take_type(alloc, at, candidate, template, description),
        }
    }

    fn take_type(
        &mut self,
        alloc: Global,
        at: usize,
        candidate: ParameterKind,
        template: TypedTemplate,
        description: &StatementDescription,
    ) -> Result<(), AllocError>
        ensures { OnOk result (self.new ≡ types_by (typing_outcome at template description.now) at candidate template description.now self.old) }
    {
        match typing_outcome(at, &template, description) {
            Outcome::Done => {
                let next = unknown_behind(at, template.types.as_slice());
                let template = typed(at, candidate, template);
                self.go_on_typing(alloc, next, template, description)
            }
            Outcome::Refused(fault) => {
                self.refuse_statement(fault);
                Ok(())
            }
            Outcome::Breaks(_) => {
                self.end();
                Ok(())
            }
        }
    }

    fn go_on_typing(
        &mut self,
        alloc: Global,
        next: Option<usize>,
        template: TypedTemplate,
        description: &StatementDescription,
    ) -> Result<(), AllocError>
        ensures { OnOk result (self.new ≡ goes_on_typing next template description.now self.old) }
    {
        match next {
            Some(at) => {
                let copy = template.try_copy(alloc)?;
                self.keep(alloc, StatementPiece::Empty, copy)?;
                self.ask_sample(alloc, at, ParameterKind::Text, &template)
            }
            None => {
                let piece = sampled_piece(alloc, &template.labels, &self.want, description)?;
                self.keep(alloc, piece, template)?;
                self.listen();
                Ok(())
            }
        }
    }
}

// Says that a statement with parameters is kept, once it is.
pub(crate) fn say_typing(
    moment: &TalkMoment,
    at: usize,
    candidate: ParameterKind,
    description: &StatementDescription,
    said: &mut Said,
) -> Result<(), AllocError>
    ensures { OnOk result (Puts (said_typing at candidate moment.now description.now) said.old said.new) }
{
    match template_in(moment.statements.find(moment.name.as_str())) {
        None => Ok(()),
        Some(template) => say_types(template, at, candidate, description, said),
    }
}

fn say_types(
    template: &TypedTemplate,
    at: usize,
    candidate: ParameterKind,
    description: &StatementDescription,
    said: &mut Said,
) -> Result<(), AllocError>
    ensures { OnOk result (Puts (said_tried (candidate_behind at candidate template.now.types description.now) (typing_outcome at template.now description.now) (unknown_from (suc at) template.now.types)) said.old said.new) }
{
    match candidate_behind(at, candidate, template.types.as_slice(), description) {
        Some(_) => Ok(()),
        None => say_typed(
            typing_outcome(at, template, description),
            unknown_behind(at, template.types.as_slice()),
            said,
        ),
    }
}

fn say_typed(outcome: Outcome, next: Option<usize>, said: &mut Said) -> Result<(), AllocError>
    ensures { OnOk result (Puts (said_typed outcome next) said.old said.new) }
{
    match outcome {
        Outcome::Done => say_behind(next, said),
        Outcome::Refused(_) => Ok(()),
        Outcome::Breaks(fault) => said.put_fatal(fault),
    }
}

fn say_behind(next: Option<usize>, said: &mut Said) -> Result<(), AllocError>
    ensures { OnOk result (Puts (said_behind next) said.old said.new) }
{
    match next {
        Some(_) => Ok(()),
        None => said.put(&BackendMessage::ParseComplete),
    }
}
