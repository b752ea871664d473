//! Laws of patterns: at which of its events a tenant meets a listed refusal, and which.

ghost use Rattle.abstract_database.specs.Runs.{ReadingRelation, Stops};
ghost use Rattle.database_laws.specs.Patterns.{patterns_determine_answers, patterns_determine_delivered_answers};
ghost use Rattle.database_laws.specs.TwoTenants.{PartsAtSelect};
ghost use Rattle.database_laws.specs.HiddenKeys.{PlacesTell};
ghost use Rattle.database_laws.specs.StorePatterns.{store_patterns_determine_answers};

use crate::runs::{Reader, Stopping};

/// The pattern of a run of a tenant is the list of its own answers with every answer struck out that is no
/// refusal for a taken key (23505), for the writer lock (55P03) or for the number of sessions (53300): the
/// places and codes of these. Take two runs as in `tenants_are_told_what_they_see`, in which the tenant counts
/// by no UPDATE or DELETE that reads no column, makes no definition that may unhide and sets no role of others,
/// and after each definition of others the machines are alike to it. If its answers have one pattern in both,
/// they are the same, to the end.
///
/// So it is where not each own event is answered, at a stop or at the end of a connection, if this is so at the
/// same places of both runs, and each such event is carried out in both, or in neither.
pub fn patterns_determine_answers()
    ensures acts { patterns_determine_answers }
    ensures delivered { patterns_determine_delivered_answers }
{}

/// The same of two servers as in `stores_tell_tenants_what_they_see`, whose patterns also name the refusals that a
/// store gives: for memory, for space, after the last commit number, and of the device. No text is itself read as
/// one for memory, for space or of the device.
pub fn store_patterns_determine_answers<R: Reader, S: Stopping, T: Stopping>()
    ensures { store_patterns_determine_answers R.Reads S.Leave T.Leave }
{}

/// Of machines that are not alike to a tenant patterns determine nothing: where its own rows differ, a SELECT has
/// one pattern and two answers.
pub fn patterns_leave_answers_open()
    ensures { PartsAtSelect }
{}

/// The number of the listed refusals does not determine the answers, nor do their codes in order. Two machines meet
/// the premises of `patterns_determine_answers`; over each a tenant inserts two keys and meets one refusal, of the
/// one key or of the other.
pub fn places_of_refusals_tell()
    ensures { PlacesTell }
{}
