// The steps at the existentials. These are noted as sets, by inner id and by role, so that for one of them all those that it takes
// in are found at once: their inner ids are below its own, and their roles count as its own.
ghost use Rattle.std.specs.Prelude.{◌≡◌, true, ◌<◌, length, replicate};
ghost use Rattle.subsumption.specs.Tables.{count_of};
ghost use Rattle.subsumption.specs.Inner.Columns.{has, InThree};
ghost use Rattle.subsumption.specs.Inner.Links.{Inner, Union, Existentials, KindsTo, Laid, LinkedTo};
ghost use Rattle.subsumption.specs.Inner.Closure.{LinkPass};
ghost use Rattle.subsumption.specs.Inner.Sizes.{columns_size, roles_size};

use crate::closure::columns::{Words, take};
use crate::closure::sets::{insert, put, union};
use crate::limits::{KIND_WORDS, ROLE_WORDS, SET_WORDS, WORDS};
use crate::tables::{Node, node_at};

// Notes the existentials: those of each inner id, all inner ids, those of each role.
pub fn note_existentials(
    concepts: &[u16],
    outer: &mut [u64; WORDS],
    inners: &mut [u64; SET_WORDS],
    lines: &mut [u64; WORDS],
)
    requires inner { Inner concepts.now }
    requires outer_value { outer.old ≡ replicate columns_size 0 }
    requires inners_value { inners.old ≡ replicate 3 0 }
    requires lines_value { lines.old ≡ replicate columns_size 0 }
    ensures { Existentials concepts.now outer.new inners.new lines.new (count_of concepts.now) }
{
    let count = concepts.len() / 3;
    for e in 0..count {
        let Node::Exists(role, inner) = node_at(concepts, e) else {
            continue;
        };
        insert(outer, inner as usize, e);
        insert(inners, 0, inner as usize);
        insert(lines, role as usize, e);
    }
}

// For each role the existentials whose role counts as it.
pub fn note_kinds(into: &[u64; ROLE_WORDS], lines: &[u64; WORDS], kinds: &mut [u64; KIND_WORDS])
    ensures { KindsTo into.now lines.now kinds.new 100 }
{
    for s in 0..100 {
        let low = into[s * 2];
        let high = into[s * 2 + 1];
        let all = union(lines, low, high, 0);
        put(kinds, s, all.first, all.second, all.third);
    }
}

// The existentials whose inner id is below that id.
fn over(
    columns: &[u64; WORDS],
    outer: &[u64; WORDS],
    inners: &[u64; SET_WORDS],
    inner: usize,
) -> Words
    requires inner_bound { inner < 192 }
    ensures { Union outer.now (λ x. (has columns.now x inner ≡ true) × (has inners.now x 0 ≡ true))
        (InThree result.first result.second result.third) }
{
    let at = inner * 3;
    let first = columns[at] & inners[0];
    let second = columns[at + 1] & inners[1];
    let third = columns[at + 2] & inners[2];
    union(outer, first, second, third)
}

// An existential f: what is below an existential whose role counts as f's and whose inner id is below f's is below f.
pub fn link_to(
    concepts: &[u16],
    outer: &[u64; WORDS],
    inners: &[u64; SET_WORDS],
    kinds: &[u64; KIND_WORDS],
    columns: &mut [u64; WORDS],
    f: usize,
) -> bool
    requires inner { Inner concepts.now }
    requires laid { Laid outer.now inners.now kinds.now }
    requires f_bound { f < count_of concepts.now }
    ensures { LinkPass concepts.now outer.now inners.now kinds.now
        (λ wide. LinkedTo concepts.now wide f) columns.old columns.new result }
{
    let Node::Exists(role, inner) = node_at(concepts, f) else {
        return false;
    };
    let at = role as usize * 3;
    let found = over(columns, outer, inners, inner as usize);
    let first = found.first & kinds[at];
    let second = found.second & kinds[at + 1];
    let third = found.third & kinds[at + 2];
    let all = union(columns, first, second, third);
    take(columns, f, all.first, all.second, all.third)
}
