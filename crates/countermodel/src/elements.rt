// The rows of the interpretation that is shown: the names of each element, then the links of each element by each role.
ghost use Rattle.std.specs.Prelude.{◌≡◌, ◌+◌, ◌<◌, ◌≤◌, length};
ghost use Rattle.subsumption.specs.Tables.{count_of};
ghost use Rattle.subsumption.specs.Table.{marked};
ghost use Rattle.subsumption.specs.Inner.Roles.{LowRoles};
ghost use Rattle.subsumption.specs.Inner.Sizes.{roles_size, table_size};
ghost use Rattle.countermodel.specs.Rows.{joined};
ghost use Rattle.countermodel.specs.Countermodel.{shown_rows};
ghost use Rattle.countermodel.specs.Inner.Show.{Checked, ForRoles, Put, names_of, links_by, links_of};

use crate::limits::{ROLES, TABLE_BYTES};
use crate::marks::{note_links, note_names};
use crate::roles::{mark_used, note_own};
use crate::rows::put_marks;
use subsumption::helpers::note_roles;
use subsumption::limits::{CONCEPTS, NAMES, ROLE_WORDS};

// The names of one element.
fn put_names_of(
    concepts: &[u16],
    table: &[u8; TABLE_BYTES],
    i: usize,
    at: usize,
    out: &mut [u16],
) -> usize
    requires checked { Checked concepts.now }
    requires i_bound { (i < count_of concepts.now) × (at ≤ 16000000) }
    ensures upper_bound { result ≤ at + 4000 }
    ensures put { Put out.old at (names_of concepts.now (marked table.now) i) result out.new }
{
    let mut names = [false; NAMES];
    note_names(concepts, table, i, &mut names);
    put_marks(&names, NAMES, 0, i as u16, 0, at, out)
}

// The names of all elements, from the front of the buffer.
fn put_names(concepts: &[u16], table: &[u8; TABLE_BYTES], out: &mut [u16]) -> usize
    requires checked { Checked concepts.now }
    ensures upper_bound { result ≤ 768000 }
    ensures put { Put out.old 0 (joined (names_of concepts.now (marked table.now)) 0 (count_of concepts.now)) result
        out.new }
{
    let count = concepts.len() / 3;
    let mut end: usize = 0;
    for i in 0..count {
        end = put_names_of(concepts, table, i, end, out);
    }
    end
}

// The links of one element by one role.
fn put_links_by(
    concepts: &[u16],
    into: &[u64; ROLE_WORDS],
    table: &[u8; TABLE_BYTES],
    i: usize,
    role: usize,
    at: usize,
    out: &mut [u16],
) -> usize
    requires checked { Checked concepts.now }
    requires i_bound { (i < count_of concepts.now) × (role < 100) × (at ≤ 16000000) }
    ensures upper_bound { result ≤ at + 768 }
    ensures for_roles { ForRoles into.now
        (λ roles. Put out.old at (links_by concepts.now roles (marked table.now) i role) result out.new) }
{
    let mut links = [false; CONCEPTS];
    note_links(concepts, into, table, i, role, &mut links);
    put_marks(
        &links,
        concepts.len() / 3,
        1,
        i as u16,
        role as u16,
        at,
        out,
    )
}

// The links of one element by all roles.
fn put_links_of(
    concepts: &[u16],
    into: &[u64; ROLE_WORDS],
    table: &[u8; TABLE_BYTES],
    i: usize,
    at: usize,
    out: &mut [u16],
) -> usize
    requires checked { Checked concepts.now }
    requires i_bound { (i < count_of concepts.now) × (at ≤ 15600000) }
    ensures upper_bound { result ≤ at + 76800 }
    ensures for_roles { ForRoles into.now
        (λ roles. Put out.old at (links_of concepts.now roles (marked table.now) i) result out.new) }
{
    let mut own = [false; ROLES];
    note_own(concepts, table, i, &mut own);
    let mut used = [false; ROLES];
    mark_used(into, &own, &mut used);
    let mut end = at;
    for s in 0..ROLES {
        if used[s] {
            end = put_links_by(concepts, into, table, i, s, end, out);
        }
    }
    end
}

// The links of all elements.
fn put_links(
    concepts: &[u16],
    roles: &[u16],
    table: &[u8; TABLE_BYTES],
    at: usize,
    out: &mut [u16],
) -> usize
    requires checked { Checked concepts.now }
    requires low_roles { LowRoles roles.now }
    requires at_bound { at ≤ 768000 }
    ensures { Put out.old at
        (joined (links_of concepts.now roles.now (marked table.now)) 0 (count_of concepts.now)) result out.new }
{
    let mut into = [0u64; ROLE_WORDS];
    note_roles(roles, &mut into);
    let count = concepts.len() / 3;
    let mut end = at;
    for i in 0..count {
        end = put_links_of(concepts, &into, table, i, end, out);
    }
    end
}

// All rows, from the front of the buffer; answers how many numbers they take.
pub fn put_rows(
    concepts: &[u16],
    roles: &[u16],
    table: &[u8; TABLE_BYTES],
    out: &mut [u16],
) -> usize
    requires checked { Checked concepts.now }
    requires low_roles { LowRoles roles.now }
    ensures { Put out.old 0 (shown_rows concepts.now roles.now (marked table.now)) result out.new }
{
    let end = put_names(concepts, table, out);
    put_links(concepts, roles, table, end, out)
}
