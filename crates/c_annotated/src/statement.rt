//! Statements (C99 6.8), and the initializers of objects (6.7.8), with the types of their expressions.

use crate::expression::Noted;

pub type Statement = c_typed::Statement<Noted>;

pub type Arm = c_typed::Arm<Noted>;

pub type Initializer = c_typed::Initializer<Noted>;

pub type InitializerPart = c_typed::InitializerPart<Noted>;

pub type PartValue = c_typed::PartValue<Noted>;
