// The checks of a given interpretation, and of what is asked of it (02, A.5), in their order.
ghost use Rattle.std.specs.Prelude.{◌≡◌};
ghost use Rattle.countermodel.specs.Membership.{size_fault, bad_row, rows_fault, element_fault};

use subsumption::refusal::Refusal;

const ELEMENTS: u16 = 192;

// Check 1.
pub fn check_size(size: u16, rows: &[u16]) -> Result<(), Refusal>
    ensures { result ≡ size_fault size rows.now }
{
    if size == 0 {
        return Err(Refusal::Limit(0));
    }
    if ELEMENTS < size {
        return Err(Refusal::Limit(0));
    }
    if rows.len() % 4 != 0 {
        return Err(Refusal::Limit(0));
    }
    Ok(())
}

fn is_bad_row(size: u16, kind: u16, element: u16, last: u16) -> bool
    ensures { result ≡ bad_row size kind element last }
{
    if kind == 0 {
        if size <= element {
            return true;
        }
        return last != 0;
    }
    if kind == 1 {
        if size <= element {
            return true;
        }
        return size <= last;
    }
    true
}

// Check 2.
pub fn check_rows(size: u16, rows: &[u16]) -> Result<(), Refusal>
    ensures { result ≡ rows_fault size rows.now }
{
    let count = rows.len() / 4;
    for p in 0..count {
        let at = p * 4;
        if is_bad_row(size, rows[at], rows[at + 1], rows[at + 3]) {
            return Err(Refusal::Malformed(p));
        }
    }
    Ok(())
}

// Check 4.
pub fn check_element(count: usize, size: u16, concept: u16, element: u16) -> Result<(), Refusal>
    ensures { result ≡ element_fault count size concept element }
{
    if count <= concept as usize {
        return Err(Refusal::NoConcept(0));
    }
    if size <= element {
        return Err(Refusal::NoConcept(1));
    }
    Ok(())
}
