// Lists that give each id its new one: their checks, and the list that leads back.
ghost use Rattle.std.specs.Prelude.{◌≡◌, ◌≤◌, length};
ghost use Rattle.renumbering.specs.Order.{order_fault};
ghost use Rattle.renumbering.specs.Inner.Order.{Arranges, LeadsBack};

use subsumption::limits::CONCEPTS;
use subsumption::refusal::Refusal;

// Check 21.
pub fn check_order(order: &[u16], count: usize) -> Result<(), Refusal>
    requires { count ≤ 192 }
    ensures { result ≡ order_fault count order.now }
{
    let mut seen = [false; CONCEPTS];
    for (m, new) in order.iter().enumerate() {
        let id = *new as usize;
        if count <= id {
            return Err(Refusal::BadOrder(m));
        }
        if seen[id] {
            return Err(Refusal::BadOrder(m));
        }
        seen[id] = true;
    }
    if order.len() != count {
        return Err(Refusal::BadOrder(order.len()));
    }
    Ok(())
}

// The old id of each new one.
pub fn invert(order: &[u16], back: &mut [u16])
    requires arranges { Arranges (length order.now) order.now }
    requires order_len_bound { length order.now ≤ 192 }
    requires back_len { length back.old ≡ 192 }
    ensures { LeadsBack order.now back.new }
{
    for (i, new) in order.iter().enumerate() {
        back[*new as usize] = i as u16;
    }
}
