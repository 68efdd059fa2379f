// The tables and the assignment as the proposals want them. Private to the crate.
use crate::writer::sets::{
    ALL, FROM, MEMBERS, NAMED, NODE, OUTER, PAIR, ROLES, TO, UPPER, USED, put, store,
};
use subsumption::helpers::{Node, Row};
use subsumption::limits::ROLE_WORDS;

pub fn load_roles(into: &[u64; ROLE_WORDS], work: &mut [u64]) {
    for (s, set) in (0..100).zip(into.chunks_exact(2)) {
        store(work, ROLES, s, 0, set[0]);
        store(work, ROLES, s, 1, set[1]);
    }
}

fn load_pair(work: &mut [u64], m: u16, left: u16, right: u16) {
    store(work, PAIR, m, 0, left as u64);
    store(work, PAIR, m, 1, right as u64);
    put(work, FROM, left, m);
    put(work, TO, right, m);
    put(work, USED, 6, left);
    put(work, USED, 7, right);
}

pub fn load_pairs(inclusions: &[u16], work: &mut [u64]) {
    for (m, pair) in (0..192).zip(inclusions.chunks_exact(2)) {
        load_pair(work, m, pair[0], pair[1]);
    }
}

fn load_member(work: &mut [u64], id: u16, member: u16) {
    put(work, MEMBERS, id, member);
    put(work, UPPER, member, id);
    put(work, USED, 3, member);
    put(work, USED, 4, member);
}

fn load_choice(atoms: &[u16], choice: u64, work: &mut [u64], id: u16) {
    for (q, &atom) in atoms.iter().take(64).enumerate() {
        if (choice >> q) % 2 == 1 {
            load_member(work, id, atom);
        }
    }
}

fn load_shape(atoms: &[u16], assignment: &[u64], work: &mut [u64], id: u16, node: Node) {
    match node {
        Node::Top => {}
        Node::Name(name) => {
            put(work, NAMED, name, id);
        }
        Node::Exists(_, inner) => {
            put(work, OUTER, inner, id);
            put(work, USED, 5, inner);
        }
        Node::And(a, b) => {
            load_member(work, id, a);
            load_member(work, id, b);
        }
        Node::Variable(k) => {
            if (k as usize) < assignment.len() {
                load_choice(atoms, assignment[k as usize], work, id);
            }
        }
    }
}

fn load_row(atoms: &[u16], assignment: &[u64], work: &mut [u64], id: u16, row: Row) {
    store(work, NODE, id, 0, row.kind as u64);
    store(work, NODE, id, 1, row.a as u64);
    store(work, NODE, id, 2, row.b as u64);
    put(work, ALL, 0, id);
    load_shape(atoms, assignment, work, id, Node::from(row));
}

pub fn load_rows(concepts: &[u16], atoms: &[u16], assignment: &[u64], work: &mut [u64]) {
    for (id, row) in (0..192).zip(concepts.chunks_exact(3)) {
        if let &[kind, a, b] = row {
            load_row(atoms, assignment, work, id, Row { kind, a, b });
        }
    }
}
