// Rows of the tables, read by place.
ghost use Rattle.std.specs.Prelude.{◌≡◌, ◌<◌};
ghost use Rattle.subsumption.specs.Tables.{decode, node, count_of, pairs_of};
ghost use Rattle.subsumption.specs.Inner.Tables.{row_of, pair_of};

use crate::kinds::{CONJUNCTION, EXISTENTIAL, NAME, VARIABLE};

// The tables that an operation is lent, and the number of variables (01: blanks).
#[derive(Clone, Copy)]
pub struct Tables<'a> {
    pub concepts: &'a [u16],
    pub inclusions: &'a [u16],
    pub questions: &'a [u16],
    pub roles: &'a [u16],
    pub variables: u16,
}

#[derive(Clone, Copy)]
pub struct Row {
    pub kind: u16,
    pub a: u16,
    pub b: u16,
}

#[derive(Clone, Copy)]
pub struct Pair {
    pub left: u16,
    pub right: u16,
}

pub fn row_at(concepts: &[u16], i: usize) -> Row
    requires { i < count_of concepts.now }
    ensures { result ≡ row_of concepts.now i }
{
    let at = i * 3;
    let kind = concepts[at];
    let a = concepts[at + 1];
    let b = concepts[at + 2];
    Row { kind, a, b }
}

// A row as what it stands for (01: an entry): top, a name, "some" of a role and an inner id, "and" of two ids, a variable.
#[derive(Clone, Copy, PartialEq, Eq)]
pub enum Node {
    Top,
    Name(u16),
    Exists(u16, u16),
    And(u16, u16),
    Variable(u16),
}

// The kinds 0 to 4. Any other kind is refused (check 2) before anything reads it.
impl From<Row> for Node {
    #[tactic(auto, unfolding(crate::specs::Tables::decode))]
    fn from(row: Row) -> Node
        ensures { result ≡ decode row.kind row.a row.b }
    {
        match row.kind {
            NAME => Node::Name(row.a),
            EXISTENTIAL => Node::Exists(row.a, row.b),
            CONJUNCTION => Node::And(row.a, row.b),
            VARIABLE => Node::Variable(row.a),
            _ => Node::Top,
        }
    }
}

#[tactic(auto, unfolding(crate::specs::Tables::node))]
pub fn node_at(concepts: &[u16], i: usize) -> Node
    requires { i < count_of concepts.now }
    ensures { result ≡ node concepts.now i }
{
    Node::from(row_at(concepts, i))
}

pub fn pair_at(pairs: &[u16], m: usize) -> Pair
    requires { m < pairs_of pairs.now }
    ensures { result ≡ pair_of pairs.now m }
{
    let at = m * 2;
    let left = pairs[at];
    let right = pairs[at + 1];
    Pair { left, right }
}
