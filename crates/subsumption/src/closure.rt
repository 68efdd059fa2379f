// The closure of the columns under the steps at rows, inclusions and existentials. Private to the crate.
pub mod columns;
pub mod links;
pub mod names;
pub mod sets;
pub mod settling;

ghost use Rattle.std.specs.Prelude.{◌≡◌, length};
ghost use Rattle.subsumption.specs.Roles.{wider};
ghost use Rattle.subsumption.specs.Inner.Roles.{LowRoles};
ghost use Rattle.subsumption.specs.Inner.Names.{Firsts};
ghost use Rattle.subsumption.specs.Inner.Settling.{Settleable, choose_from, AllDescended, AllAscended};
ghost use Rattle.subsumption.specs.Inner.Links.{Inner, Laid, AllLinked};
ghost use Rattle.subsumption.specs.Inner.Closure.{Ready, LowPairs, SettlePass, IncludePass, RisePass, RoundPass, Closed};
ghost use Rattle.subsumption.specs.Inner.Sizes.{columns_size};

use crate::closure::columns::flow;
use crate::closure::links::{link_to, note_existentials, note_kinds};
use crate::closure::names::note_firsts;
use crate::closure::settling::{ascend, descend};
use crate::limits::{CONCEPTS, KIND_WORDS, ROLE_WORDS, SET_WORDS, WORDS};
use crate::roles::note_roles;

// Of the existentials by role, the words: three a role.
// The inclusions: what is below a left side is below the right side.
fn include_all(inclusions: &[u16], columns: &mut [u64; WORDS]) -> bool
    requires low_pairs { LowPairs inclusions.now }
    ensures { IncludePass inclusions.now columns.old columns.new result }
{
    let count = inclusions.len() / 2;
    let mut changed = false;
    for m in 0..count {
        let left = inclusions[m * 2] as usize;
        let right = inclusions[m * 2 + 1] as usize;
        let new = flow(columns, left, right);
        changed = changed | new;
    }
    changed
}

// The inclusions until they are quiet: a pass over them costs little beside one over the rows.
fn include_until_quiet(inclusions: &[u16], columns: &mut [u64; WORDS]) -> bool
    requires low_pairs { LowPairs inclusions.now }
    ensures { IncludePass inclusions.now columns.old columns.new result }
{
    let mut changed = false;
    let mut busy = true;
    // until a pass is quiet: nothing says beforehand how many it takes
    while busy {
        busy = include_all(inclusions, columns);
        changed = changed | busy;
    }
    changed
}

// The steps that lead from a row to smaller ids, in falling order: what is below nested conjunctions comes to all members in one pass.
fn fall(concepts: &[u16], atoms: &[u16], assignment: &[u64], columns: &mut [u64; WORDS]) -> bool
    requires settleable { Settleable concepts.now atoms.now assignment.now }
    ensures { SettlePass concepts.now (choose_from atoms.now assignment.now)
        (AllDescended concepts.now (choose_from atoms.now assignment.now))
        columns.old columns.new result }
{
    let mut changed = false;
    for j in (0..concepts.len() / 3).rev() {
        let new = descend(concepts, atoms, assignment, columns, j);
        changed = changed | new;
    }
    changed
}

// The steps that lead to a row from smaller ids, and those of existentials into it. In rising order: inner ids are smaller, so that a
// tower of existentials is climbed in one pass.
fn rise(
    concepts: &[u16],
    atoms: &[u16],
    assignment: &[u64],
    firsts: &[u16; CONCEPTS],
    outer: &[u64; WORDS],
    inners: &[u64; SET_WORDS],
    kinds: &[u64; KIND_WORDS],
    columns: &mut [u64; WORDS],
) -> bool
    requires settleable { Settleable concepts.now atoms.now assignment.now }
    requires firsts { Firsts concepts.now firsts.now }
    requires inner { Inner concepts.now }
    requires laid { Laid outer.now inners.now kinds.now }
    ensures { RisePass concepts.now outer.now inners.now kinds.now
        (choose_from atoms.now assignment.now)
        (λ wide l. AllAscended concepts.now firsts.now (choose_from atoms.now assignment.now) l
        × AllLinked concepts.now wide l)
        columns.old columns.new result }
{
    let count = concepts.len() / 3;
    let mut changed = false;
    for j in 0..count {
        let a = ascend(concepts, atoms, assignment, firsts, columns, j);
        let b = link_to(concepts, outer, inners, kinds, columns, j);
        let new = a | b;
        changed = changed | new;
    }
    changed
}

fn round(
    concepts: &[u16],
    inclusions: &[u16],
    atoms: &[u16],
    assignment: &[u64],
    firsts: &[u16; CONCEPTS],
    outer: &[u64; WORDS],
    inners: &[u64; SET_WORDS],
    kinds: &[u64; KIND_WORDS],
    columns: &mut [u64; WORDS],
) -> bool
    requires ready { Ready concepts.now inclusions.now atoms.now assignment.now }
    requires firsts { Firsts concepts.now firsts.now }
    requires laid { Laid outer.now inners.now kinds.now }
    ensures { RoundPass concepts.now inclusions.now outer.now inners.now kinds.now
        (choose_from atoms.now assignment.now) firsts.now columns.old columns.new result }
{
    let a = fall(concepts, atoms, assignment, columns);
    let b = rise(
        concepts, atoms, assignment, firsts, outer, inners, kinds, columns,
    );
    let c = include_until_quiet(inclusions, columns);
    a | b | c
}

// Closes the columns from what they hold.
pub fn close(
    concepts: &[u16],
    inclusions: &[u16],
    roles: &[u16],
    atoms: &[u16],
    assignment: &[u64],
    columns: &mut [u64; WORDS],
)
    requires ready { Ready concepts.now inclusions.now atoms.now assignment.now }
    requires low_roles { LowRoles roles.now }
    ensures { Closed concepts.now inclusions.now (wider roles.now)
        (choose_from atoms.now assignment.now) columns.old columns.new }
{
    let mut firsts = [0u16; CONCEPTS];
    note_firsts(concepts, &mut firsts);
    let mut outer = [0u64; WORDS];
    let mut inners = [0u64; SET_WORDS];
    let mut lines = [0u64; WORDS];
    note_existentials(concepts, &mut outer, &mut inners, &mut lines);
    let mut into = [0u64; ROLE_WORDS];
    note_roles(roles, &mut into);
    let mut kinds = [0u64; KIND_WORDS];
    note_kinds(&into, &lines, &mut kinds);
    let mut busy = true;
    // until a pass is quiet: nothing says beforehand how many it takes
    while busy {
        busy = round(
            concepts, inclusions, atoms, assignment, &firsts, &outer, &inners, &kinds, columns,
        );
    }
}
