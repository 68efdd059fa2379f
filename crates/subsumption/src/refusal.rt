// Refusals: one case for each row of 01's refusal table, with its place where that varies.
ghost use Rattle.std.specs.Prelude.{◌≡◌};
ghost use Rattle.subsumption.specs.Refusal.{code_of};

use crate::limits::ATOMS;

#[derive(Clone, Copy)]
pub enum Refusal {
    Limit(usize),
    Malformed(usize),
    ForwardId(usize),
    NoConcept(usize),
    VariableInInclusion(usize),
    VariablesOnBothSides(usize),
    TooManyAtoms,
    BufferTooShort(usize),
    BadAssignment(usize),
    NoAssignment,
    NotSubsumed,
    BadDerivation(usize),
    BadText(usize),
    AllowanceSpent,
    NoCountermodel,
    BadRole(usize),
    BadSyntax(usize),
    TooDeep(usize),
    BadSettings(usize),
    BadBatch(usize),
    BadOrder(usize),
    ForwardInOrder(usize),
}

// The paper's number and place.
#[derive(Clone, Copy)]
pub struct Code {
    pub number: u16,
    pub place: usize,
}

// One row of the table.
fn row(number: u16, place: usize) -> Code
    ensures { result ≡ record { number = number; place = place } }
{
    Code { number, place }
}

pub fn code_of(r: Refusal) -> Code
    ensures { result ≡ code_of r }
{
    match r {
        Refusal::Limit(p) => row(1, p),
        Refusal::Malformed(p) => row(2, p),
        Refusal::ForwardId(p) => row(3, p),
        Refusal::NoConcept(p) => row(4, p),
        Refusal::VariableInInclusion(p) => row(5, p),
        Refusal::VariablesOnBothSides(p) => row(6, p),
        Refusal::TooManyAtoms => row(7, ATOMS),
        Refusal::BufferTooShort(p) => row(8, p),
        Refusal::BadAssignment(p) => row(9, p),
        Refusal::NoAssignment => row(10, 0),
        Refusal::NotSubsumed => row(11, 0),
        Refusal::BadDerivation(p) => row(12, p),
        Refusal::BadText(p) => row(13, p),
        Refusal::AllowanceSpent => row(14, 0),
        Refusal::NoCountermodel => row(15, 0),
        Refusal::BadRole(p) => row(16, p),
        Refusal::BadSyntax(p) => row(17, p),
        Refusal::TooDeep(p) => row(18, p),
        Refusal::BadSettings(p) => row(19, p),
        Refusal::BadBatch(p) => row(20, p),
        Refusal::BadOrder(p) => row(21, p),
        Refusal::ForwardInOrder(p) => row(22, p),
    }
}
