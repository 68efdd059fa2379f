// Which ids are twins: of each id the lowest one of its concept. A row has a key, made of its kind, its number and the lowest
// twins of its inner ids, so that equal keys are equal concepts. Slots by a key's remainder tell where its first row can be.
ghost use Rattle.std.specs.Prelude.{◌≡◌, ℕ, ◌+◌, ◌*◌, ◌<◌, ◌≤◌, length, get_or};
ghost use Rattle.subsumption.specs.Tables.{node, exists_at, count_of};
ghost use Rattle.subsumption.specs.Inner.Tables.{Rising};
ghost use Rattle.subsumption.specs.Inner.Atoms.{Layered};
ghost use Rattle.subsumption.specs.Inner.Twins.{key_of, FirstSame, Slots, LowestTwins, Lowered};

use crate::limits::CONCEPTS;
use crate::tables::{Node, node_at};

// A prime, so that keys spread.
const SLOTS: usize = 1021;

const NO_ROW: u16 = 192;

fn packed(kind: u16, x: u16, y: u16) -> u64
    ensures { result ≡ kind + x * 8 + y * 524288 }
{
    (kind as u64) + (x as u64) * 8 + (y as u64) * 524288
}

#[tactic(auto, unfolding(crate::specs::Inner::Twins::key_of))]
fn key_of(firsts: &[u16; CONCEPTS], node: Node) -> u64
    requires { Rising (length firsts.now) node }
    ensures { result ≡ key_of (λ j. get_or firsts.now j 0) node }
{
    match node {
        Node::Top => 0,
        Node::Name(n) => packed(1, n, 0),
        Node::Exists(r, j) => packed(2, r, firsts[j as usize]),
        Node::And(i, j) => packed(3, firsts[i as usize], firsts[j as usize]),
        Node::Variable(k) => packed(4, k, 0),
    }
}

// The first place of the i-th key, looked for from a place before which it is not.
fn first_same(keys: &[u64], from: usize, i: usize) -> usize
    requires from_le_i { from ≤ i }
    requires i_in_bounds { i < length keys.now }
    requires by_index { (q : ℕ) → q < from → get_or keys.now q 0 ≡ get_or keys.now i 0 → ⊥ }
    ensures { FirstSame keys.now i result }
{
    let key = keys[i];
    for q in from..i {
        if keys[q] == key {
            return q;
        }
    }
    i
}

// The first place of the i-th key. A slot that no row took before says that there is none below i.
fn first_place(keys: &[u64], slots: &mut [u16], i: usize) -> usize
    requires i_in_bounds { i < length keys.now }
    requires i_bound { i < 192 }
    requires slots { Slots keys.now i slots.old }
    ensures first_same { FirstSame keys.now i result }
    ensures slots_2 { Slots keys.now (i + 1) slots.new }
{
    let slot = (keys[i] % 1021) as usize;
    let from = slots[slot] as usize;
    if from < i {
        return first_same(keys, from, i);
    }
    slots[slot] = i as u16;
    i
}

// Inner ids are smaller, so one walk up finds the lowest twin of every id.
pub fn note_twins(concepts: &[u16], firsts: &mut [u16; CONCEPTS])
    requires layered { Layered concepts.now }
    requires by_index { (i r j : ℕ) → node concepts.now i ≡ exists_at r j → r < 100 }
    ensures { LowestTwins concepts.now firsts.new }
{
    let count = concepts.len() / 3;
    let mut keys = [0u64; CONCEPTS];
    let mut slots = [NO_ROW; SLOTS];
    for i in 0..count {
        let key = key_of(firsts, node_at(concepts, i));
        keys[i] = key;
        let first = first_place(&keys, &mut slots, i);
        firsts[i] = first as u16;
    }
}

// Each mark moves to the lowest twin. That one is not higher, so one walk up does.
pub fn keep_lowest(firsts: &[u16; CONCEPTS], count: usize, marks: &mut [bool; CONCEPTS])
    requires count_bound { count ≤ 192 }
    requires by_index { (i : ℕ) → i < count → get_or firsts.now i 0 ≤ i }
    ensures { Lowered firsts.now count marks.old marks.new }
{
    for p in 0..count {
        if marks[p] {
            let first = firsts[p] as usize;
            marks[p] = false;
            marks[first] = true;
        }
    }
}
