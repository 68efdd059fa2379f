// The roles by which an element can have links: those that count for a row above it. Other roles are passed over.
ghost use Rattle.std.specs.Prelude.{◌≡◌, false, ◌<◌, length, replicate};
ghost use Rattle.subsumption.specs.Tables.{count_of};
ghost use Rattle.subsumption.specs.Table.{marked};
ghost use Rattle.subsumption.specs.Inner.Sizes.{roles_size, table_size};
ghost use Rattle.countermodel.specs.Inner.Show.{Checked, RolesOf, Widened, UsedRoles};

use crate::limits::{ROLES, TABLE_BYTES};
use crate::marks::is_marked;
use subsumption::helpers::{Node, counts, node_at};
use subsumption::limits::ROLE_WORDS;

// Notes the roles of the existentials that the element i is below.
pub fn note_own(concepts: &[u16], table: &[u8; TABLE_BYTES], i: usize, own: &mut [bool; ROLES])
    requires checked { Checked concepts.now }
    requires i_bound { i < count_of concepts.now }
    requires own_value { own.old ≡ replicate 100 false }
    ensures { RolesOf concepts.now (marked table.now) i own.new }
{
    let count = concepts.len() / 3;
    for j in 0..count {
        let Node::Exists(role, _) = node_at(concepts, j) else {
            continue;
        };
        if is_marked(table, i, j) {
            own[role as usize] = true;
        }
    }
}

// Marks the roles that the role r counts as.
fn mark_wider(into: &[u64; ROLE_WORDS], r: usize, used: &mut [bool; ROLES])
    requires r_bound { r < 100 }
    ensures { Widened into.now r used.old used.new }
{
    for s in 0..ROLES {
        if counts(into, r, s) {
            used[s] = true;
        }
    }
}

// Marks the roles that an own role counts as.
pub fn mark_used(into: &[u64; ROLE_WORDS], own: &[bool; ROLES], used: &mut [bool; ROLES])
    ensures { UsedRoles into.now own.now used.new }
{
    for r in 0..ROLES {
        if own[r] {
            mark_wider(into, r, used);
        }
    }
}
