// Rules 1 and 2, which ask for no mark: an id is below itself, below each id of its own name, and below each top. One walk does them all.
ghost use Rattle.std.specs.Prelude.{◌≡◌, ◌<◌, replicate};
ghost use Rattle.subsumption.specs.Tables.{count_of};
ghost use Rattle.subsumption.specs.Inner.Names.{Nameable};
ghost use Rattle.square.specs.Inner.Square.{Square};
ghost use Rattle.incremental.specs.Inner.Start.{NamesTo, Begun, BegunAt};

use crate::marking::{ROWS, mark, take};
use square::helpers::{COLUMNS, insert};
use subsumption::helpers::{Node, node_at};

const ALL: u64 = 18446744073709551615;

// Of the names, the words: three a name.
const NAME_WORDS: usize = 3000;

fn note_names(concepts: &[u16], names: &mut [u64])
    requires nameable { Nameable concepts.now }
    requires names_value { names.old ≡ replicate 3000 0 }
    ensures { NamesTo concepts.now names.new (count_of concepts.now) }
{
    let count = concepts.len() / 3;
    for i in 0..count {
        let Node::Name(name) = node_at(concepts, i) else {
            continue;
        };
        insert(names, name as usize * 3, i);
    }
}

fn start_row(concepts: &[u16], names: &[u64], square: &mut [u64], i: usize)
    requires nameable { Nameable concepts.now }
    requires names_to { NamesTo concepts.now names.now (count_of concepts.now) }
    requires square { Square square.old }
    requires i_bound { i < count_of concepts.now }
    ensures { BegunAt concepts.now square.old square.new i }
{
    mark(square, ROWS, i, i);
    match node_at(concepts, i) {
        Node::Top => {
            take(square, COLUMNS, i, ALL, ALL, ALL);
        }
        Node::Name(name) => {
            let at = name as usize * 3;
            let first = names[at];
            let second = names[at + 1];
            let third = names[at + 2];
            take(square, ROWS, i, first, second, third);
        }
        Node::Exists(_, _) | Node::And(_, _) | Node::Variable(_) => {}
    }
}

fn start_rows(concepts: &[u16], names: &[u64], square: &mut [u64])
    requires nameable { Nameable concepts.now }
    requires names_to { NamesTo concepts.now names.now (count_of concepts.now) }
    requires square { Square square.old }
    ensures { Begun concepts.now square.old square.new }
{
    let count = concepts.len() / 3;
    for i in 0..count {
        start_row(concepts, names, square, i);
    }
}

pub fn start(concepts: &[u16], square: &mut [u64])
    requires nameable { Nameable concepts.now }
    requires square { Square square.old }
    ensures { Begun concepts.now square.old square.new }
{
    let mut names = [0u64; NAME_WORDS];
    note_names(concepts, &mut names);
    start_rows(concepts, &names, square);
}
