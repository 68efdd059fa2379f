// Rows and pairs with their ids replaced.
ghost use Rattle.std.specs.Prelude.{◌≡◌, ◌++◌, ◌≤◌, ◌<◌, length, drop};
ghost use Rattle.subsumption.specs.Tables.{count_of};
ghost use Rattle.subsumption.specs.Check.{forward};
ghost use Rattle.renumbering.specs.Order.{moved_ids};
ghost use Rattle.renumbering.specs.Renumbering.{moved_field, moved_concepts, rising_fault};
ghost use Rattle.renumbering.specs.Inner.Order.{Arranges, LeadsBack};
ghost use Rattle.renumbering.specs.Inner.Moving.{Known, Inward, moved_parts, IdsBelow};

use subsumption::helpers::{Node, Row, row_at};
use subsumption::kinds::{CONJUNCTION, EXISTENTIAL};
use subsumption::refusal::Refusal;

// A field of a row: an inner id is replaced.
fn moved_field(order: &[u16], inner: bool, x: u16) -> u16
    requires { Known order.now inner x }
    ensures { result ≡ moved_field order.now inner x }
{
    if inner {
        return order[x as usize];
    }
    x
}

fn moved_row(concepts: &[u16], order: &[u16], i: usize) -> Row
    requires inward { Inward concepts.now }
    requires order_len { length order.now ≡ count_of concepts.now }
    requires i_bound { i < count_of concepts.now }
    ensures { result ≡ moved_parts order.now concepts.now i }
{
    let row = row_at(concepts, i);
    let kind = row.kind;
    let a = moved_field(order, kind == CONJUNCTION, row.a);
    let b = moved_field(order, (kind == EXISTENTIAL) | (kind == CONJUNCTION), row.b);
    Row { kind, a, b }
}

// One of a row's inner ids is not smaller than its own.
#[tactic(auto, unfolding(subsumption::specs::Check::forward, subsumption::specs::Tables::or))]
fn is_forward(own: u16, node: Node) -> bool
    ensures { result ≡ forward own node }
{
    match node {
        Node::Top | Node::Name(_) | Node::Variable(_) => false,
        Node::Exists(_, j) => own <= j,
        Node::And(j, k) => own <= j || own <= k,
    }
}

// Check 22.
pub fn check_rising(concepts: &[u16], order: &[u16]) -> Result<(), Refusal>
    requires inward { Inward concepts.now }
    requires order_len { length order.now ≡ count_of concepts.now }
    ensures { result ≡ rising_fault concepts.now order.now }
{
    let count = concepts.len() / 3;
    for i in 0..count {
        let row = moved_row(concepts, order, i);
        if is_forward(order[i], Node::from(row)) {
            return Err(Refusal::ForwardInOrder(i));
        }
    }
    Ok(())
}

// The rows, by rising new id.
pub fn put_rows(concepts: &[u16], order: &[u16], back: &[u16], out: &mut [u16])
    requires inward { Inward concepts.now }
    requires concepts_bound { count_of concepts.now ≤ 192 }
    requires concepts_in_bounds { length concepts.now ≤ length out.old }
    requires order_len { length order.now ≡ count_of concepts.now }
    requires arranges { Arranges (count_of concepts.now) order.now }
    requires leads_back { LeadsBack order.now back.now }
    ensures { out.new ≡ moved_concepts order.now concepts.now ++ drop
        (length (moved_concepts order.now concepts.now)) out.old }
{
    let count = concepts.len() / 3;
    for k in 0..count {
        let at = k * 3;
        let row = moved_row(concepts, order, back[k] as usize);
        out[at] = row.kind;
        out[at + 1] = row.a;
        out[at + 2] = row.b;
    }
}

// The ids of pairs.
pub fn put_ids(order: &[u16], ids: &[u16], out: &mut [u16])
    requires ids_below { IdsBelow (length order.now) ids.now }
    requires ids_in_bounds { length ids.now ≤ length out.old }
    ensures { out.new ≡ moved_ids order.now ids.now ++ drop (length (moved_ids order.now ids.now))
        out.old }
{
    for (p, id) in ids.iter().enumerate() {
        out[p] = moved_field(order, true, *id);
    }
}
