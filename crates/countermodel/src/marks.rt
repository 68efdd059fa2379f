// The names and the links of an element, read off the marks of the subsumption table.
ghost use Rattle.std.specs.Prelude.{◌≡◌, false, ◌<◌, length, replicate};
ghost use Rattle.subsumption.specs.Tables.{count_of};
ghost use Rattle.subsumption.specs.Table.{marked};
ghost use Rattle.subsumption.specs.Inner.Sizes.{roles_size, table_size};
ghost use Rattle.countermodel.specs.Inner.Show.{Checked, ForRoles, NamesOf, LinksOf};

use crate::limits::TABLE_BYTES;
use subsumption::helpers::{Node, counts, node_at};
use subsumption::limits::{ROLE_WORDS, ROW_BYTES};

// The concept i is below the concept j.
pub fn is_marked(table: &[u8; TABLE_BYTES], i: usize, j: usize) -> bool
    requires i_bound { (i < 192) × (j < 192) }
    ensures { result ≡ marked table.now i j }
{
    (table[i * ROW_BYTES + j / 8] >> (j % 8)) % 2 == 1
}

// Notes which names the element i bears.
pub fn note_names(concepts: &[u16], table: &[u8; TABLE_BYTES], i: usize, names: &mut [bool])
    requires checked { Checked concepts.now }
    requires i_bound { i < count_of concepts.now }
    requires names_value { names.old ≡ replicate 1000 false }
    ensures { NamesOf concepts.now (marked table.now) i names.new }
{
    let count = concepts.len() / 3;
    for j in 0..count {
        let Node::Name(name) = node_at(concepts, j) else {
            continue;
        };
        if is_marked(table, i, j) {
            names[name as usize] = true;
        }
    }
}

// Notes to which elements the element i is linked by the role.
pub fn note_links(
    concepts: &[u16],
    into: &[u64; ROLE_WORDS],
    table: &[u8; TABLE_BYTES],
    i: usize,
    role: usize,
    links: &mut [bool],
)
    requires checked { Checked concepts.now }
    requires i_bound { (i < count_of concepts.now) × (role < 100) }
    requires links_value { links.old ≡ replicate 192 false }
    ensures { ForRoles into.now (λ roles. LinksOf concepts.now roles (marked table.now) i role links.new) }
{
    let count = concepts.len() / 3;
    for j in 0..count {
        let Node::Exists(narrow, to) = node_at(concepts, j) else {
            continue;
        };
        if !counts(into, narrow as usize, role) {
            continue;
        }
        if is_marked(table, i, j) {
            links[to as usize] = true;
        }
    }
}
