// Rule 5. The existentials are noted as sets, by inner id and by role, so that for an existential all those that come below it are found
// at once: their inner ids are below its own, and their roles count as its own.
ghost use Rattle.std.specs.Prelude.{◌≡◌, ◌+◌, ◌*◌, ◌<◌, ◌≤◌, length, replicate};
ghost use Rattle.subsumption.specs.Tables.{count_of};
ghost use Rattle.subsumption.specs.Inner.Links.{Inner};
ghost use Rattle.subsumption.specs.Inner.Roles.{in_set};
ghost use Rattle.subsumption.specs.Inner.Sizes.{roles_size};
ghost use Rattle.square.specs.Inner.Square.{Square};
ghost use Rattle.incremental.specs.Inner.Marking.{InThree};
ghost use Rattle.incremental.specs.Inner.Links.{Existentials, Joins, ByRole, ByInner, LinkPass};

use crate::marking::{holds, take};
use square::helpers::{COLUMNS, insert};
use subsumption::helpers::{Node, Words, node_at};
use subsumption::limits::{CONCEPTS, ROLE_WORDS};

// Of the roles, the words: three a role, and lines to 128.
pub const ROLE_LINES: usize = CONCEPTS * 2;

// Notes the existentials: those of each inner id, all inner ids, those of each role.
pub fn note_existentials(concepts: &[u16], outer: &mut [u64], inners: &mut [u64], roles: &mut [u64])
    requires inner { Inner concepts.now }
    requires outer_value { outer.old ≡ replicate 576 0 }
    requires inners_value { inners.old ≡ replicate 3 0 }
    requires roles_value { roles.old ≡ replicate 384 0 }
    ensures { Existentials concepts.now outer.new inners.new roles.new (count_of concepts.now) }
{
    let count = concepts.len() / 3;
    for e in 0..count {
        let Node::Exists(role, inner) = node_at(concepts, e) else {
            continue;
        };
        insert(outer, inner as usize * 3, e);
        insert(inners, 0, inner as usize);
        insert(roles, role as usize * 3, e);
    }
}

// The set with all lines, from line `from` on, that the word picks.
fn join(sets: &[u64], from: usize, word: u64, set: Words) -> Words
    requires { from * 3 + 192 ≤ length sets.now }
    ensures { Joins sets.now from word (InThree set.first set.second set.third)
        (InThree result.first result.second result.third) }
{
    let mut first = set.first;
    let mut second = set.second;
    let mut third = set.third;
    let mut rest = word;
    while rest != 0 {
        let at = (from + u64::trailing_zeros(rest) as usize) * 3;
        first = first | sets[at];
        second = second | sets[at + 1];
        third = third | sets[at + 2];
        rest = rest & (rest - 1);
    }
    Words {
        first,
        second,
        third,
    }
}

// The existentials whose role counts as that role.
fn of_role(into: &[u64; ROLE_WORDS], roles: &[u64], role: usize) -> Words
    requires roles_len { length roles.now ≡ 384 }
    requires role_bound { role < 100 }
    ensures { ByRole into.now roles.now role (InThree result.first result.second result.third) }
{
    let none = Words {
        first: 0,
        second: 0,
        third: 0,
    };
    let low = into[role * 2];
    let high = into[role * 2 + 1];
    let some = join(roles, 0, low, none);
    join(roles, 64, high, some)
}

// The existentials whose inner id is below that id.
fn over(square: &[u64], outer: &[u64], inners: &[u64], inner: usize) -> Words
    requires square { Square square.now }
    requires outer_len { length outer.now ≡ 576 }
    requires inners_len { length inners.now ≡ 3 }
    requires inner_bound { inner < 192 }
    ensures { ByInner square.now outer.now inners.now inner (InThree result.first result.second result.third) }
{
    let none = Words {
        first: 0,
        second: 0,
        third: 0,
    };
    let at = COLUMNS + inner * 3;
    let a = square[at] & inners[0];
    let b = square[at + 1] & inners[1];
    let c = square[at + 2] & inners[2];
    let one = join(outer, 0, a, none);
    let two = join(outer, 64, b, one);
    join(outer, 128, c, two)
}

// An existential f: below it is each existential whose role counts as its own and whose inner id is below its own.
pub fn link_to(
    concepts: &[u16],
    into: &[u64; ROLE_WORDS],
    outer: &[u64],
    inners: &[u64],
    roles: &[u64],
    square: &mut [u64],
    f: usize,
) -> bool
    requires inner { Inner concepts.now }
    requires existentials { Existentials concepts.now outer.now inners.now roles.now (count_of concepts.now) }
    requires square { Square square.old }
    requires f_bound { f < count_of concepts.now }
    ensures { LinkPass concepts.now (in_set into.now) f square.old square.new result }
{
    let Node::Exists(role, inner) = node_at(concepts, f) else {
        return false;
    };
    let kinds = of_role(into, roles, role as usize);
    let first = kinds.first;
    let second = kinds.second;
    let third = kinds.third;
    if holds(square, COLUMNS + f * 3, first, second, third) {
        return false;
    }
    let found = over(square, outer, inners, inner as usize);
    let a = first & found.first;
    let b = second & found.second;
    let c = third & found.third;
    take(square, COLUMNS, f, a, b, c)
}
