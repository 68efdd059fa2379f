// The steps at the rows.
ghost use Rattle.std.specs.Prelude.{◌≡◌, ◌<◌, length};
ghost use Rattle.subsumption.specs.Tables.{count_of};
ghost use Rattle.subsumption.specs.Inner.Names.{Firsts};
ghost use Rattle.subsumption.specs.Inner.Settling.{Settleable, Descended, Ascended, choose_from};
ghost use Rattle.subsumption.specs.Inner.Closure.{SettlePass};
ghost use Rattle.subsumption.specs.Inner.Sizes.{columns_size};

use crate::closure::columns::{fill, flow, gather, mark, meet, spread};
use crate::limits::{CONCEPTS, WORDS};
use crate::tables::{Node, node_at};

// The steps at the row j that lead to itself and to smaller ids.
pub fn descend(
    concepts: &[u16],
    atoms: &[u16],
    assignment: &[u64],
    columns: &mut [u64; WORDS],
    j: usize,
) -> bool
    requires settleable { Settleable concepts.now atoms.now assignment.now }
    requires j_bound { j < count_of concepts.now }
    ensures { SettlePass concepts.now (choose_from atoms.now assignment.now)
        (Descended concepts.now (choose_from atoms.now assignment.now) j)
        columns.old columns.new result }
{
    let own = mark(columns, j);
    match node_at(concepts, j) {
        Node::Top | Node::Name(_) | Node::Exists(_, _) => own,
        Node::And(x, y) => {
            let a = flow(columns, j, x as usize);
            let b = flow(columns, j, y as usize);
            own | a | b
        }
        Node::Variable(k) => {
            let a = spread(atoms, assignment[k as usize], columns, j);
            own | a
        }
    }
}

// The steps at the row j that lead from smaller ids to it, and those between twins of a name.
pub fn ascend(
    concepts: &[u16],
    atoms: &[u16],
    assignment: &[u64],
    firsts: &[u16; CONCEPTS],
    columns: &mut [u64; WORDS],
    j: usize,
) -> bool
    requires settleable { Settleable concepts.now atoms.now assignment.now }
    requires firsts { Firsts concepts.now firsts.now }
    requires j_bound { j < count_of concepts.now }
    ensures { SettlePass concepts.now (choose_from atoms.now assignment.now)
        (Ascended concepts.now firsts.now (choose_from atoms.now assignment.now) j)
        columns.old columns.new result }
{
    match node_at(concepts, j) {
        Node::Top => fill(columns, j),
        Node::Name(_) => {
            let first = firsts[j] as usize;
            let a = flow(columns, j, first);
            let b = flow(columns, first, j);
            a | b
        }
        Node::Exists(_, _) => false,
        Node::And(x, y) => meet(columns, x as usize, y as usize, j),
        Node::Variable(k) => gather(atoms, assignment[k as usize], columns, j),
    }
}
