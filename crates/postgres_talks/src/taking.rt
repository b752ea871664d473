//! What is said to what a message asks, and where it leads.

ghost use Rattle.std.specs.Prelude.{◌≡◌, IfOk, OnOk};
ghost use Rattle.std.specs.Option.{option_copied, option_map};
ghost use Rattle.postgres_talks.specs.Requests.{after_done_request, after_unless, bind_fault, bound_fault, carries_on, columns_of, executes, fault_of, formats_fault, formats_in, heeded, heeded_skipping, if_found, is_taken, known_width, left_of, mode_for, or_else, piece_width, prepare_fault, row_width, said_to_done, said_unless, width_fault};
ghost use Rattle.postgres_talks.specs.Named.{find, put_bound};
ghost use Rattle.postgres_talks.specs.Portals.{held_in, left_by, rest_of};
ghost use Rattle.postgres_talks.specs.Sayings.{Puts};

use crate::fault::TalkFault;
use crate::formats::{ResultFormats, are_formats_for};
use crate::moment::{DescribedKind, Mode, SESSION, TalkMoment, TalkStage};
use crate::named_pieces::{NamedPiece, NamedPieces};
use crate::parameters::TypedTemplate;
use crate::piece::{PieceQueue, StatementPiece};
use crate::portals::{is_discard, is_resumed};
use crate::requests::Request;
use crate::rows::copied;
use crate::said::Said;
use postgres_messages::backend::{BackendMessage, ValueFormat};
use sql_ast::description::ResultColumn;
use sql_types::items::Items;
use sql_types::state::SqlState;
use sql_types::text::Text;
use sql_types::try_copy::TryCopy;
use std::alloc::{AllocError, Global};
use talks::want::{SessionEntry, Want, Way};

/// The most prepared statements that a connection has.
const MAX_STATEMENTS: usize = 512;

/// The most portals.
const MAX_PORTALS: usize = 64;

// Behind an error in a batch all is passed over up to Sync.
pub(crate) fn heeded(mode: Mode, asked: Request) -> Request
    ensures { result ≡ heeded mode asked }
{
    match mode {
        Mode::Skipping => heeded_skipping(asked),
        _ => asked,
    }
}

fn heeded_skipping(asked: Request) -> Request
    ensures { result ≡ heeded_skipping asked }
{
    match asked {
        Request::Sync => Request::Sync,
        Request::Leave => Request::Leave,
        Request::Breaks(fault) => Request::Breaks(fault),
        _ => Request::Nothing,
    }
}

// Why what is asked is not done, if there is a reason.
pub(crate) fn fault_of(asked: &Request, moment: &TalkMoment) -> Option<TalkFault>
    ensures { result ≡ fault_of asked.now moment.now }
{
    match asked {
        Request::Prepare(name, _) => prepare_fault(name.as_str(), &moment.statements),
        Request::PrepareTemplate(name, _) => prepare_fault(name.as_str(), &moment.statements),
        Request::Bind(name, statement, bound, formats) => if_found(
            moment.statements.find(statement.as_str()),
            TalkFault::UnknownStatement,
            or_else(
                bind_fault(name.as_str(), bound, &moment.portals),
                formats_fault(
                    formats.as_slice(),
                    moment.statements.find(statement.as_str()),
                ),
            ),
        ),
        Request::Execute(name, _) => if_found(
            moment.portals.find(name.as_str()),
            TalkFault::UnknownPortal,
            None,
        ),
        Request::DescribeStatement(name) => if_found(
            moment.statements.find(name.as_str()),
            TalkFault::UnknownStatement,
            None,
        ),
        Request::DescribePortal(name) => if_found(
            moment.portals.find(name.as_str()),
            TalkFault::UnknownPortal,
            None,
        ),
        Request::Fails(_, fault) => Some(*fault),
        _ => None,
    }
}

fn if_found(
    found: Option<&NamedPiece>,
    missing: TalkFault,
    others: Option<TalkFault>,
) -> Option<TalkFault>
    ensures { result ≡ if_found (option_copied found.entry) missing others }
{
    match found {
        None => Some(missing),
        Some(_) => others,
    }
}

fn prepare_fault(name: &str, statements: &NamedPieces) -> Option<TalkFault>
    ensures { result ≡ prepare_fault name.now statements.now }
{
    if is_taken(name, statements) {
        Some(TalkFault::StatementExists)
    } else if statements.len() >= MAX_STATEMENTS {
        Some(TalkFault::Refused(SqlState::ProgramLimitExceeded))
    } else {
        None
    }
}

fn bind_fault(
    name: &str,
    bound: &Result<StatementPiece, TalkFault>,
    portals: &NamedPieces,
) -> Option<TalkFault>
    ensures { result ≡ bind_fault name.now bound.now portals.now }
{
    if is_taken(name, portals) {
        Some(TalkFault::PortalExists)
    } else {
        bound_fault(bound, portals.len())
    }
}

// Why what was bound is none, or why there is no place for it.
fn bound_fault(bound: &Result<StatementPiece, TalkFault>, portals: usize) -> Option<TalkFault>
    ensures { result ≡ bound_fault bound.now portals }
{
    match bound {
        Err(fault) => Some(*fault),
        Ok(_) if portals >= MAX_PORTALS => {
            Some(TalkFault::Refused(SqlState::ProgramLimitExceeded))
        }
        Ok(_) => None,
    }
}

// The first of two.
fn or_else(first: Option<TalkFault>, second: Option<TalkFault>) -> Option<TalkFault>
    ensures { result ≡ or_else first second }
{
    match first {
        None => second,
        Some(fault) => Some(fault),
    }
}

// Whether there are formats for the columns that a client knows.
fn formats_fault(formats: &[ValueFormat], found: Option<&NamedPiece>) -> Option<TalkFault>
    ensures { result ≡ formats_fault formats.now (option_copied found.entry) }
{
    match found {
        None => None,
        Some(entry) => width_fault(formats, known_width(&entry.columns, &entry.piece)),
    }
}

fn width_fault(formats: &[ValueFormat], width: Option<usize>) -> Option<TalkFault>
    ensures { result ≡ width_fault formats.now width }
{
    match width {
        None => None,
        Some(width) => {
            if are_formats_for(formats, width) {
                None
            } else {
                Some(TalkFault::OtherFormats)
            }
        }
    }
}

// How many columns a client knows. A text that is answered without the machine has one, if it answers a row.
fn known_width(columns: &Option<Items<ResultColumn>>, piece: &StatementPiece) -> Option<usize>
    ensures { result ≡ known_width columns.now piece.now }
{
    match columns {
        Some(columns) => Some(columns.len()),
        None => piece_width(piece),
    }
}

fn piece_width(piece: &StatementPiece) -> Option<usize>
    ensures { result ≡ piece_width piece.now }
{
    match piece {
        StatementPiece::Settled(settled, _) => row_width(settled.row()),
        _ => None,
    }
}

fn row_width(row: Option<(&'static str, &'static str)>) -> Option<usize>
    ensures { result ≡ row_width (option_map (λ r. (r.0.now, r.1.now)) row.entry) }
{
    match row {
        Some(_) => Some(1),
        None => None,
    }
}

// Whether a name other than the empty one is there.
fn is_taken(name: &str, pieces: &NamedPieces) -> bool
    ensures { result ≡ is_taken name.now pieces.now }
{
    !name.is_empty() && pieces.find(name).is_some()
}

// Says what is to be said to what is asked, unless it is not done.
pub(crate) fn say_request(
    fault: Option<TalkFault>,
    asked: &Request,
    said: &mut Said,
) -> Result<(), AllocError>
    ensures { OnOk result (Puts (said_unless fault asked.now) said.old said.new) }
{
    match fault {
        Some(_) => Ok(()),
        None => say_done(asked, said),
    }
}

fn say_done(asked: &Request, said: &mut Said) -> Result<(), AllocError>
    ensures { OnOk result (Puts (said_to_done asked.now) said.old said.new) }
{
    match asked {
        Request::Encryption => said.put_no_encryption(),
        Request::Prepare(_, _) => said.put(&BackendMessage::ParseComplete),
        Request::Bind(_, _, _, _) => said.put(&BackendMessage::BindComplete),
        Request::CloseStatement(_) | Request::ClosePortal(_) => said.put(
            &BackendMessage::CloseComplete,
        ),
        Request::Breaks(fault) => said.put_fatal(*fault),
        _ => Ok(()),
    }
}

// Goes on to what is asked, unless it is not done.
pub(crate) fn take_request(
    alloc: Global,
    moment: &mut TalkMoment,
    fault: Option<TalkFault>,
    asked: Request,
) -> Result<(), AllocError>
    ensures { OnOk result (moment.new ≡ after_unless fault asked moment.old) }
{
    moment.mode = mode_for(&asked, moment.mode);
    match fault {
        Some(fault) => {
            moment.look(TalkStage::Refusing(fault));
            Ok(())
        }
        None => take_done(alloc, moment, asked),
    }
}

// By what rules it is answered.
fn mode_for(asked: &Request, mode: Mode) -> Mode
    ensures { result ≡ mode_for asked.now mode }
{
    match asked {
        Request::Statements(_) | Request::Sync => Mode::Query,
        Request::Prepare(_, _)
        | Request::PrepareTemplate(_, _)
        | Request::Bind(_, _, _, _)
        | Request::Execute(_, _)
        | Request::DescribeStatement(_)
        | Request::DescribePortal(_)
        | Request::CloseStatement(_)
        | Request::ClosePortal(_) => Mode::Batch,
        Request::Fails(other, _) => *other,
        _ => mode,
    }
}

fn take_done(alloc: Global, moment: &mut TalkMoment, asked: Request) -> Result<(), AllocError>
    ensures { OnOk result (moment.new ≡ after_done_request asked moment.old) }
{
    match asked {
        Request::Login(role) => open(moment, role),
        Request::Statements(pieces) => return run(alloc, moment, pieces),
        Request::Prepare(name, piece) => {
            return moment.statements.put(NamedPiece {
                name,
                piece,
                columns: None,
                formats: ResultFormats::new(alloc),
                parameters: None,
                rest: None,
            });
        }
        Request::PrepareTemplate(name, template) => {
            return prepare_template(alloc, moment, name, template);
        }
        Request::Bind(name, statement, bound, formats) => {
            return bind(alloc, moment, name, &statement, bound, formats);
        }
        Request::Execute(name, most) => return execute(alloc, moment, &name, most),
        Request::DescribeStatement(name) => return describe_statement(alloc, moment, name),
        Request::DescribePortal(name) => return describe_portal(alloc, moment, name),
        Request::CloseStatement(name) => moment.statements.remove(name.as_str()),
        Request::ClosePortal(name) => moment.portals.remove(name.as_str()),
        Request::Sync => {
            moment.hold_portals();
            return moment.finish(alloc);
        }
        Request::Leave | Request::Breaks(_) => moment.end(),
        _ => {}
    }
    Ok(())
}

// A session is wanted, which anyone may open, for any role.
fn open(moment: &mut TalkMoment, role: Text)
    ensures { moment.new ≡ after_done_request (Request.Login role) moment.old }
{
    moment.stage = TalkStage::Opening;
    moment.want = Want::Open {
        session: SESSION,
        login: role,
        entry: SessionEntry {
            way: Way::Anyone,
            no_superuser: false,
            shown: None,
        },
    };
}

fn run(alloc: Global, moment: &mut TalkMoment, pieces: PieceQueue) -> Result<(), AllocError>
    ensures { OnOk result (moment.new ≡ after_done_request (Request.Statements pieces) moment.old) }
{
    moment.left = pieces;
    moment.most = 0;
    moment.go_on(alloc)
}

fn prepare_template(
    alloc: Global,
    moment: &mut TalkMoment,
    name: Text,
    template: TypedTemplate,
) -> Result<(), AllocError>
    ensures { OnOk result (moment.new ≡ after_done_request (Request.PrepareTemplate name template) moment.old) }
{
    moment.name = name;
    let copy = template.try_copy(alloc)?;
    moment.keep(alloc, StatementPiece::Empty, copy)?;
    moment.begin_typing(alloc, &template)
}

fn bind(
    alloc: Global,
    moment: &mut TalkMoment,
    name: Text,
    statement: &Text,
    bound: Result<StatementPiece, TalkFault>,
    formats: ResultFormats,
) -> Result<(), AllocError>
    ensures { OnOk result (moment.new ≡ record moment.old { portals = put_bound name formats bound (find statement.now moment.old.statements) moment.old.portals }) }
{
    let found = moment.statements.find(statement.as_str());
    moment.portals.put_bound(alloc, name, formats, bound, found)
}

fn execute(alloc: Global, moment: &mut TalkMoment, name: &Text, most: u32) -> Result<(), AllocError>
    ensures { OnOk result (moment.new ≡ after_done_request (Request.Execute name.now most) moment.old) }
{
    let found = moment.portals.take(name.as_str());
    moment.left = left_of(alloc, found.as_ref())?;
    moment.columns = columns_of(alloc, found.as_ref())?;
    moment.formats = formats_in(alloc, found.as_ref())?;
    moment.most = most;
    moment.portal = found;
    carry_on(alloc, moment)
}

// What is left of an answer is told without the machine, and DISCARD ALL begins no block.
fn carry_on(alloc: Global, moment: &mut TalkMoment) -> Result<(), AllocError>
    ensures { OnOk result (moment.new ≡ carries_on moment.old.portal moment.old) }
{
    if is_resumed(&moment.portal) {
        moment.look(TalkStage::Resuming);
        return Ok(());
    }
    if is_discard(&moment.portal) {
        moment.left.clear();
        return moment.discard(alloc);
    }
    moment.go_on(alloc)
}

fn describe_statement(alloc: Global, moment: &mut TalkMoment, name: Text) -> Result<(), AllocError>
    ensures { OnOk result (moment.new ≡ after_done_request (Request.DescribeStatement name) moment.old) }
{
    moment.formats.clear();
    let Some(entry) = moment.statements.find(name.as_str()) else {
        moment.name = name;
        return Ok(());
    };
    let piece = entry.piece.try_copy(alloc)?;
    moment.name = name;
    moment.describe_piece(DescribedKind::Statement, piece);
    Ok(())
}

fn describe_portal(alloc: Global, moment: &mut TalkMoment, name: Text) -> Result<(), AllocError>
    ensures { OnOk result (moment.new ≡ after_done_request (Request.DescribePortal name) moment.old) }
{
    let found = moment.portals.find(name.as_str());
    moment.formats = formats_in(alloc, found)?;
    let Some(entry) = found else {
        moment.name = name;
        return Ok(());
    };
    let piece = entry.piece.try_copy(alloc)?;
    moment.name = name;
    moment.describe_piece(DescribedKind::Portal, piece);
    Ok(())
}

// The one statement that is to be carried out, if there is one.
fn left_of(alloc: Global, found: Option<&NamedPiece>) -> Result<PieceQueue, AllocError>
    ensures { IfOk result (λ left. left ≡ left_of (option_copied found.entry)) }
{
    let mut left = PieceQueue::new(alloc);
    if let Some(entry) = found {
        if entry.rest.is_none() {
            left.push(entry.piece.try_copy(alloc)?)?;
        }
    }
    Ok(left)
}

// The columns that its client was told.
fn columns_of(
    alloc: Global,
    found: Option<&NamedPiece>,
) -> Result<Option<Items<ResultColumn>>, AllocError>
    ensures { IfOk result (λ columns. columns ≡ columns_of (option_copied found.entry)) }
{
    match found {
        None => Ok(None),
        Some(entry) => copied(alloc, &entry.columns),
    }
}

// The formats in which its rows are wanted.
fn formats_in(alloc: Global, found: Option<&NamedPiece>) -> Result<ResultFormats, AllocError>
    ensures { IfOk result (λ formats. formats ≡ formats_in (option_copied found.entry)) }
{
    match found {
        None => Ok(ResultFormats::new(alloc)),
        Some(entry) => entry.formats.try_copy(alloc),
    }
}
