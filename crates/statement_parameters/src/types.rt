//! The types that a client may declare for parameters, by their numbers in PostgreSQL's `pg_type`.

ghost use Rattle.std.specs.Prelude.{◌≡◌};
ghost use Rattle.statement_parameters.specs.Types.{kind_of, oid_of, parameter_types, type_in, type_of_kind, type_of_oid};

use sql_types::try_copy::TryCopy;
use std::alloc::{AllocError, Global};

/// A type of the language.
#[derive(Clone, Copy, PartialEq, Eq)]
pub enum ParameterKind {
    BigInt,
    Text,
    Boolean,
}

/// A type that a client declares for a parameter.
#[derive(Clone, Copy, PartialEq, Eq)]
pub enum ParameterType {
    /// 0: none is declared.
    Undeclared,
    /// 16: `bool`.
    Bool,
    /// 19: `name`.
    Name,
    /// 20: `int8`.
    Int8,
    /// 21: `int2`.
    Int2,
    /// 23: `int4`.
    Int4,
    /// 25: `text`.
    Text,
    /// 705: `unknown`.
    Unknown,
    /// 1043: `varchar`.
    Varchar,
    /// 1700: `numeric`.
    Numeric,
}

const PARAMETER_TYPES: [ParameterType; 10] = [
    ParameterType::Undeclared,
    ParameterType::Bool,
    ParameterType::Name,
    ParameterType::Int8,
    ParameterType::Int2,
    ParameterType::Int4,
    ParameterType::Text,
    ParameterType::Unknown,
    ParameterType::Varchar,
    ParameterType::Numeric,
];

impl ParameterType {
    /// The type of a number, if it is one that a parameter may have.
    pub fn of_oid(oid: u32) -> Option<ParameterType>
        ensures { result ≡ type_of_oid oid }
    {
        type_in(&PARAMETER_TYPES, oid)
    }

    /// Its number.
    pub fn oid(self) -> u32
        ensures { result ≡ oid_of self }
    {
        match self {
            ParameterType::Undeclared => 0,
            ParameterType::Bool => 16,
            ParameterType::Name => 19,
            ParameterType::Int8 => 20,
            ParameterType::Int2 => 21,
            ParameterType::Int4 => 23,
            ParameterType::Text => 25,
            ParameterType::Unknown => 705,
            ParameterType::Varchar => 1043,
            ParameterType::Numeric => 1700,
        }
    }

    /// The type of the language that it stands for, or `None` where that has to be found.
    pub fn kind(self) -> Option<ParameterKind>
        ensures { result ≡ kind_of self }
    {
        match self {
            ParameterType::Undeclared | ParameterType::Unknown => None,
            ParameterType::Bool => Some(ParameterKind::Boolean),
            ParameterType::Int8
            | ParameterType::Int2
            | ParameterType::Int4
            | ParameterType::Numeric => Some(ParameterKind::BigInt),
            ParameterType::Text | ParameterType::Varchar | ParameterType::Name => {
                Some(ParameterKind::Text)
            }
        }
    }

    /// The type that a client is told of for a type of the language: `int8`, `text` or `bool`.
    pub fn of_kind(kind: ParameterKind) -> ParameterType
        ensures { result ≡ type_of_kind kind }
    {
        match kind {
            ParameterKind::BigInt => ParameterType::Int8,
            ParameterKind::Text => ParameterType::Text,
            ParameterKind::Boolean => ParameterType::Bool,
        }
    }
}

impl TryCopy for ParameterType {
    fn try_copy(&self, _: Global) -> Result<ParameterType, AllocError> {
        Ok(*self)
    }
}

// The first of the types that has the number.
fn type_in(mut types: &[ParameterType], oid: u32) -> Option<ParameterType>
    ensures { result ≡ type_in types.entry.now oid }
{
    while let [first, rest @ ..] = types {
        if first.oid() == oid {
            return Some(*first);
        }
        types = rest;
    }
    None
}
