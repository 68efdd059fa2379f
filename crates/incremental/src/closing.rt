// All the rules, in rounds until one changes nothing. Rules 1 and 2 are taken once.
ghost use Rattle.std.specs.Prelude.{◌≡◌, ◌≤◌, length};
ghost use Rattle.subsumption.specs.Tables.{count_of, pairs_of};
ghost use Rattle.subsumption.specs.Roles.{wider};
ghost use Rattle.subsumption.specs.Inner.Roles.{in_set, LowRoles};
ghost use Rattle.subsumption.specs.Inner.Settling.{choose_from};
ghost use Rattle.subsumption.specs.Inner.Closure.{Ready};
ghost use Rattle.subsumption.specs.Inner.Sizes.{roles_size};
ghost use Rattle.square.specs.Inner.Square.{Square};
ghost use Rattle.incremental.specs.Inner.Including.{Chain, Idle};
ghost use Rattle.incremental.specs.Inner.Links.{Existentials};
ghost use Rattle.incremental.specs.Inner.Closing.{RoundPass, Rounded, Closed};

use crate::including::{note_chain, note_idle};
use crate::links::{ROLE_LINES, note_existentials};
use crate::order::note_order;
use crate::rising::rise;
use crate::rows::close_rows;
use crate::start::start;
use subsumption::helpers::note_roles;
use subsumption::limits::{CONCEPTS, INCLUSIONS, ROLE_WORDS, WORDS};

const NO_PAIR: u16 = 96;

// For each id and for each inclusion, a number.
const CHAIN: usize = CONCEPTS + INCLUSIONS;

fn round(
    concepts: &[u16],
    inclusions: &[u16],
    atoms: &[u16],
    choices: &[u64],
    chain: &[u16],
    idle: &[u64],
    order: &[u16],
    into: &[u64; ROLE_WORDS],
    outer: &[u64],
    inners: &[u64],
    roles: &[u64],
    square: &mut [u64],
) -> bool
    requires ready { Ready concepts.now inclusions.now atoms.now choices.now }
    requires inclusions_bound { pairs_of inclusions.now ≤ 96 }
    requires chain { Chain inclusions.now chain.now }
    requires idle { Idle inclusions.now idle.now }
    requires order_len { length order.now ≡ 192 }
    requires existentials { Existentials concepts.now outer.now inners.now roles.now (count_of concepts.now) }
    requires square { Square square.old }
    ensures { RoundPass concepts.now inclusions.now (in_set into.now)
        (choose_from atoms.now choices.now) square.old square.new result }
{
    let a = close_rows(
        concepts, inclusions, atoms, choices, chain, idle, order, square,
    );
    let b = rise(
        concepts, inclusions, atoms, choices, into, outer, inners, roles, square,
    );
    a | b
}

fn rounds(
    concepts: &[u16],
    inclusions: &[u16],
    atoms: &[u16],
    choices: &[u64],
    chain: &[u16],
    idle: &[u64],
    into: &[u64; ROLE_WORDS],
    outer: &[u64],
    inners: &[u64],
    roles: &[u64],
    square: &mut [u64],
)
    requires ready { Ready concepts.now inclusions.now atoms.now choices.now }
    requires inclusions_bound { pairs_of inclusions.now ≤ 96 }
    requires chain { Chain inclusions.now chain.now }
    requires idle { Idle inclusions.now idle.now }
    requires existentials { Existentials concepts.now outer.now inners.now roles.now (count_of concepts.now) }
    requires square { Square square.old }
    ensures { Rounded concepts.now inclusions.now (in_set into.now)
        (choose_from atoms.now choices.now) square.old square.new }
{
    let mut order = [0u16; CONCEPTS];
    note_order(square, concepts.len() / 3, &mut order);
    let mut busy = true;
    // until a round is quiet: nothing says beforehand how many it takes
    while busy {
        busy = round(
            concepts, inclusions, atoms, choices, chain, idle, &order, into, outer, inners, roles,
            square,
        );
    }
}

// Closes the marks under all rules.
pub fn close(
    concepts: &[u16],
    inclusions: &[u16],
    roles: &[u16],
    atoms: &[u16],
    choices: &[u64],
    square: &mut [u64],
)
    requires ready { Ready concepts.now inclusions.now atoms.now choices.now }
    requires inclusions_bound { pairs_of inclusions.now ≤ 96 }
    requires low_roles { LowRoles roles.now }
    requires square { Square square.old }
    ensures { Closed concepts.now inclusions.now (wider roles.now)
        (choose_from atoms.now choices.now) square.old square.new }
{
    start(concepts, square);
    let mut chain = [NO_PAIR; CHAIN];
    note_chain(inclusions, &mut chain);
    let mut idle = [0u64; 3];
    note_idle(inclusions, &chain, &mut idle);
    let mut into = [0u64; ROLE_WORDS];
    note_roles(roles, &mut into);
    let mut outer = [0u64; WORDS];
    let mut inners = [0u64; 3];
    let mut lines = [0u64; ROLE_LINES];
    note_existentials(concepts, &mut outer, &mut inners, &mut lines);
    rounds(
        concepts, inclusions, atoms, choices, &chain, &idle, &into, &outer, &inners, &lines, square,
    );
}
