// Rules 4, 5 and 8 at every column, in rising order: what they read of a column is at smaller ids, so that a tower of existentials is
// climbed in one pass. A column that gained takes rule 6 at once, for the storeys above it; the rows are asked for the rest.
ghost use Rattle.std.specs.Prelude.{◌≡◌, ◌<◌, length};
ghost use Rattle.subsumption.specs.Tables.{count_of};
ghost use Rattle.subsumption.specs.Inner.Roles.{in_set};
ghost use Rattle.subsumption.specs.Inner.Links.{Inner};
ghost use Rattle.subsumption.specs.Inner.Settling.{Settleable, choose_from};
ghost use Rattle.subsumption.specs.Inner.Sizes.{roles_size};
ghost use Rattle.square.specs.Inner.Square.{Square};
ghost use Rattle.incremental.specs.Inner.Including.{Pairs};
ghost use Rattle.incremental.specs.Inner.Links.{Existentials};
ghost use Rattle.incremental.specs.Inner.Rising.{ColumnGains, RisenPass, AllRisen};

use crate::links::link_to;
use crate::marking::meet;
use crate::settling::settle_column;
use square::helpers::{COLUMNS, has};
use subsumption::limits::ROLE_WORDS;

// Rule 6, at the column j: what is below a left side is below it, if the right side is. Once through the inclusions, so that a no says
// nothing.
fn include_column(inclusions: &[u16], count: usize, square: &mut [u64], j: usize) -> bool
    requires pairs { Pairs count inclusions.now }
    requires square { Square square.old }
    requires j_lt_count { j < count }
    ensures { ColumnGains count inclusions.now square.old square.new result }
{
    let pairs = inclusions.len() / 2;
    let mut changed = false;
    for m in 0..pairs {
        let left = inclusions[m * 2] as usize;
        let right = inclusions[m * 2 + 1] as usize;
        if !has(square, COLUMNS + j * 3, right) {
            continue;
        }
        let new = meet(square, left, left, j);
        changed = changed | new;
    }
    changed
}

// The column j.
fn rise_column(
    concepts: &[u16],
    inclusions: &[u16],
    atoms: &[u16],
    choices: &[u64],
    into: &[u64; ROLE_WORDS],
    outer: &[u64],
    inners: &[u64],
    roles: &[u64],
    square: &mut [u64],
    j: usize,
) -> bool
    requires settleable { Settleable concepts.now atoms.now choices.now }
    requires pairs { Pairs (count_of concepts.now) inclusions.now }
    requires inner { Inner concepts.now }
    requires existentials { Existentials concepts.now outer.now inners.now roles.now (count_of concepts.now) }
    requires square { Square square.old }
    requires j_bound { j < count_of concepts.now }
    ensures { RisenPass concepts.now inclusions.now (in_set into.now)
        (choose_from atoms.now choices.now) j square.old square.new result }
{
    let a = settle_column(concepts, atoms, choices, square, j);
    let b = link_to(concepts, into, outer, inners, roles, square, j);
    if !(a | b) {
        return false;
    }
    include_column(inclusions, concepts.len() / 3, square, j);
    true
}

pub fn rise(
    concepts: &[u16],
    inclusions: &[u16],
    atoms: &[u16],
    choices: &[u64],
    into: &[u64; ROLE_WORDS],
    outer: &[u64],
    inners: &[u64],
    roles: &[u64],
    square: &mut [u64],
) -> bool
    requires settleable { Settleable concepts.now atoms.now choices.now }
    requires pairs { Pairs (count_of concepts.now) inclusions.now }
    requires inner { Inner concepts.now }
    requires existentials { Existentials concepts.now outer.now inners.now roles.now (count_of concepts.now) }
    requires square { Square square.old }
    ensures { AllRisen concepts.now inclusions.now (in_set into.now)
        (choose_from atoms.now choices.now) square.old square.new result }
{
    let count = concepts.len() / 3;
    let mut changed = false;
    for j in 0..count {
        let new = rise_column(
            concepts, inclusions, atoms, choices, into, outer, inners, roles, square, j,
        );
        changed = changed | new;
    }
    changed
}
