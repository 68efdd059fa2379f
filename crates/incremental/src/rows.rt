// Rules 3, 6 and 7 at every row, in the proposed order. A row is finished when it has taken in all that they ask of it; while nothing
// changes, it stays so.
ghost use Rattle.std.specs.Prelude.{◌≡◌, length};
ghost use Rattle.subsumption.specs.Tables.{count_of};
ghost use Rattle.subsumption.specs.Inner.Settling.{Settleable, choose_from};
ghost use Rattle.square.specs.Inner.Square.{Square};
ghost use Rattle.incremental.specs.Inner.Including.{Pairs, Chain, Idle};
ghost use Rattle.incremental.specs.Inner.Rows.{RowsPass};

use crate::including::{include_row, member, proposed};
use crate::settling::settle_row;
use square::helpers::{has, insert};

pub fn close_rows(
    concepts: &[u16],
    inclusions: &[u16],
    atoms: &[u16],
    choices: &[u64],
    chain: &[u16],
    idle: &[u64],
    order: &[u16],
    square: &mut [u64],
) -> bool
    requires settleable { Settleable concepts.now atoms.now choices.now }
    requires pairs { Pairs (count_of concepts.now) inclusions.now }
    requires chain { Chain inclusions.now chain.now }
    requires idle { Idle inclusions.now idle.now }
    requires order_len { length order.now ≡ 192 }
    requires square { Square square.old }
    ensures { RowsPass concepts.now inclusions.now (choose_from atoms.now choices.now)
        square.old square.new result }
{
    let count = concepts.len() / 3;
    let mut done = [0u64; 3];
    let mut changed = false;
    let mut hint: usize = 0;
    for n in 0..count * 2 {
        let i = proposed(order, count, n);
        if has(&done, 0, i) {
            continue;
        }
        let a = settle_row(concepts, atoms, choices, square, i);
        let x = member(concepts, i, 1);
        let y = member(concepts, i, 2);
        let b = include_row(inclusions, chain, idle, count, square, &done, i, hint, x, y);
        changed = changed | a | b;
        insert(&mut done, 0, i);
        hint = i;
    }
    changed
}
