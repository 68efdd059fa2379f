// Which variables a concept holds: sets as 8-bit numbers with bit k for variable k, those of all concepts in one walk.
ghost use Rattle.std.specs.Prelude.{◌≡◌, ℕ, ◌<◌, length, get_or};
ghost use Rattle.subsumption.specs.Lent.{lent};
ghost use Rattle.subsumption.specs.Tables.{node, var_at, count_of, tree, variables_of};
ghost use Rattle.subsumption.specs.Refusal.{reply_with, value_reply};
ghost use Rattle.subsumption.specs.Check.{pair_fault};
ghost use Rattle.subsumption.specs.Inner.Tables.{Rising};
ghost use Rattle.subsumption.specs.Inner.Atoms.{Layered, set_by, Narrow, VariableSets};
ghost use Rattle.subsumption.specs.Inner.Listing.{Prepared};

use crate::limits::{ATOMS, CONCEPTS};
use crate::listing::list_asked;
use crate::refusal::Refusal;
use crate::tables::{Node, Tables, node_at};

// The set of a row, by those of its inner ids.
#[tactic(auto, unfolding(crate::specs::Inner::Atoms::set_by))]
fn set_of(sets: &[u8; CONCEPTS], node: Node) -> u8
    requires rising { Rising (length sets.now) node }
    requires narrow { Narrow node }
    ensures { result ≡ set_by (λ j. get_or sets.now j 0) node }
{
    match node {
        Node::Top | Node::Name(_) => 0,
        Node::Exists(_, j) => sets[j as usize],
        Node::And(i, j) => sets[i as usize] | sets[j as usize],
        Node::Variable(k) => 1 << k,
    }
}

// Inner ids are smaller, so one walk up writes the sets of all concepts.
pub fn write_sets(concepts: &[u16], sets: &mut [u8; CONCEPTS])
    requires layered { Layered concepts.now }
    requires by_index { (j k : ℕ) → node concepts.now j ≡ var_at k → k < 8 }
    ensures { VariableSets concepts.now sets.new }
{
    let count = concepts.len() / 3;
    for i in 0..count {
        let set = set_of(sets, node_at(concepts, i));
        sets[i] = set;
    }
}

// The set of one concept of accepted tables.
fn set_at(
    concepts: &[u16],
    inclusions: &[u16],
    roles: &[u16],
    atoms: &[u16],
    variables: u16,
    id: u16,
) -> u8
    requires prepared { Prepared concepts.now inclusions.now roles.now variables atoms.now }
    requires id_bound { id < count_of concepts.now }
    ensures { result ≡ variables_of (tree concepts.now id) }
{
    let mut sets = [0u8; CONCEPTS];
    write_sets(concepts, &mut sets);
    sets[id as usize]
}

// The set of the variables in a concept. An id that is no concept is judged as a pair given alone is.
pub fn variables_in(tables: Tables, id: u16) -> Result<u8, Refusal>
    ensures { value_reply result ≡ reply_with (pair_fault (lent tables) id id)
        (variables_of (tree (lent tables).concepts id)) }
{
    let mut ids = [0u16; ATOMS];
    let count = list_asked(tables, id, id, &mut ids)?;
    Ok(set_at(
        tables.concepts,
        tables.inclusions,
        tables.roles,
        &ids[..count],
        tables.variables,
        id,
    ))
}
