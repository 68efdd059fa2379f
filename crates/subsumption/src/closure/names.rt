// Of each name its first row, by which the rows of one name exchange.
ghost use Rattle.std.specs.Prelude.{◌≡◌, ◌+◌, ◌<◌, length};
ghost use Rattle.subsumption.specs.Tables.{count_of};
ghost use Rattle.subsumption.specs.Inner.Names.{Nameable, Seen, Firsts, IsNamed, FirstNamed};

use crate::limits::{CONCEPTS, NAMES};
use crate::tables::{Node, node_at};

fn is_named(concepts: &[u16], k: usize, name: u16) -> bool
    requires { k < count_of concepts.now }
    ensures { IsNamed concepts.now k name result }
{
    node_at(concepts, k) == Node::Name(name)
}

// The first row of j's name: the one seen, or j itself.
fn first_named(concepts: &[u16], seen: &[u16], j: usize) -> usize
    requires nameable { Nameable concepts.now }
    requires seen { Seen concepts.now j seen.now }
    requires j_bound { j < count_of concepts.now }
    ensures { FirstNamed concepts.now j result }
{
    let Node::Name(name) = node_at(concepts, j) else {
        return j;
    };
    let first = seen[name as usize] as usize;
    if is_named(concepts, first, name) {
        return first;
    }
    j
}

fn note_seen(concepts: &[u16], j: usize, first: usize, seen: &mut [u16])
    requires nameable { Nameable concepts.now }
    requires seen { Seen concepts.now j seen.old }
    requires j_bound { j < count_of concepts.now }
    requires first_named { FirstNamed concepts.now j first }
    ensures { Seen concepts.now (j + 1) seen.new }
{
    if let Node::Name(name) = node_at(concepts, j) {
        seen[name as usize] = first as u16;
    }
}

// One walk, by a table of the names.
pub fn note_firsts(concepts: &[u16], firsts: &mut [u16; CONCEPTS])
    requires nameable { Nameable concepts.now }
    ensures { Firsts concepts.now firsts.new }
{
    let count = concepts.len() / 3;
    let mut seen = [0u16; NAMES];
    for j in 0..count {
        let first = first_named(concepts, &seen, j);
        note_seen(concepts, j, first, &mut seen);
        firsts[j] = first as u16;
    }
}
