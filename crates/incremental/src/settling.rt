// Rules 3, 4, 7 and 8, at the rows of "and" and of variables. Rules 3 and 7 move rows, 4 and 8 columns.
ghost use Rattle.std.specs.Prelude.{◌≡◌, ℕ, ◌<◌, true, length};
ghost use mathlib.Core.List.{Memᴰ};
ghost use Rattle.subsumption.specs.Tables.{count_of};
ghost use Rattle.subsumption.specs.Atoms.{pick};
ghost use Rattle.subsumption.specs.Inner.Columns.{Known, Common};
ghost use Rattle.subsumption.specs.Inner.Settling.{Settleable, choose_from};
ghost use Rattle.square.specs.Inner.Square.{in_row, Square};
ghost use Rattle.incremental.specs.Inner.Marking.{Adds};
ghost use Rattle.incremental.specs.Inner.Settling.{SpreadPass, InnerPass, MeetPass};

use crate::marking::{flow, meet, take};
use square::helpers::COLUMNS;
use subsumption::helpers::{Node, Words, node_at};

const ALL: u64 = 18446744073709551615;

// The row `to` takes in the rows of all chosen atoms.
fn spread(atoms: &[u16], choice: u64, square: &mut [u64], to: usize) -> bool
    requires square { Square square.old }
    requires known { Known atoms.now }
    requires to_bound { to < 192 }
    ensures { SpreadPass atoms.now choice to square.old square.new result }
{
    let mut changed = false;
    for (q, atom) in atoms.iter().enumerate() {
        let picked = (choice >> q) % 2;
        if picked == 0 {
            continue;
        }
        let new = flow(square, *atom as usize, to);
        changed = changed | new;
    }
    changed
}

// The bits that the columns of all chosen atoms have.
fn common(atoms: &[u16], choice: u64, columns: &[u64]) -> Words
    requires columns_len { length columns.now ≡ 576 }
    requires known { Known atoms.now }
    ensures common { Common (length atoms.now) atoms.now choice columns.now 0 result.first }
    ensures common_2 { Common (length atoms.now) atoms.now choice columns.now 1 result.second }
    ensures common_3 { Common (length atoms.now) atoms.now choice columns.now 2 result.third }
{
    let mut first = ALL;
    let mut second = ALL;
    let mut third = ALL;
    for (q, atom) in atoms.iter().enumerate() {
        let at = *atom as usize * 3;
        let picked = (choice >> q) % 2;
        if picked == 0 {
            continue;
        }
        first = first & columns[at];
        second = second & columns[at + 1];
        third = third & columns[at + 2];
    }
    Words {
        first,
        second,
        third,
    }
}

// What is below all chosen atoms is below `to`.
fn gather(atoms: &[u16], choice: u64, square: &mut [u64], to: usize) -> bool
    requires square { Square square.old }
    requires known { Known atoms.now }
    requires to_bound { to < 192 }
    ensures { Adds in_row square.old square.new
        (λ i j. (j ≡ to) × ((p : ℕ) → Memᴰ p (pick atoms.now choice) → in_row square.old i p ≡ true)) result }
{
    let words = common(atoms, choice, &square[COLUMNS..]);
    let first = words.first;
    let second = words.second;
    let third = words.third;
    take(square, COLUMNS, to, first, second, third)
}

// Rules 3 and 7, at the row i.
pub fn settle_row(
    concepts: &[u16],
    atoms: &[u16],
    choices: &[u64],
    square: &mut [u64],
    i: usize,
) -> bool
    requires settleable { Settleable concepts.now atoms.now choices.now }
    requires square { Square square.old }
    requires i_bound { i < count_of concepts.now }
    ensures { InnerPass concepts.now (choose_from atoms.now choices.now) i square.old square.new result }
{
    match node_at(concepts, i) {
        Node::Top | Node::Name(_) | Node::Exists(_, _) => false,
        Node::And(x, y) => {
            let a = flow(square, x as usize, i);
            let b = flow(square, y as usize, i);
            a | b
        }
        Node::Variable(k) => spread(atoms, choices[k as usize], square, i),
    }
}

// Rules 4 and 8, at the column j.
pub fn settle_column(
    concepts: &[u16],
    atoms: &[u16],
    choices: &[u64],
    square: &mut [u64],
    j: usize,
) -> bool
    requires settleable { Settleable concepts.now atoms.now choices.now }
    requires square { Square square.old }
    requires j_bound { j < count_of concepts.now }
    ensures { MeetPass concepts.now (choose_from atoms.now choices.now) j square.old square.new result }
{
    match node_at(concepts, j) {
        Node::Top | Node::Name(_) | Node::Exists(_, _) => false,
        Node::And(x, y) => meet(square, x as usize, y as usize, j),
        Node::Variable(k) => gather(atoms, choices[k as usize], square, j),
    }
}
