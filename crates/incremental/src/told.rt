// An assignment told as pairs: the check of the pairs, and the choices that they tell.
ghost use Rattle.std.specs.Prelude.{◌≡◌, replicate};
ghost use Rattle.incremental.specs.Inner.Told.{bad_pair, told_fault_in, PlaceOf, Readable, ToldChoices};

use subsumption::refusal::Refusal;

// The place of the id among the atoms; their number if it is none.
fn place_of(atoms: &[u16], id: u16) -> usize
    ensures { PlaceOf atoms.now id result }
{
    atoms
        .iter()
        .position(|atom| *atom == id)
        .unwrap_or(atoms.len())
}

fn is_bad(atoms: &[u16], variables: u16, variable: u16, id: u16) -> bool
    ensures { result ≡ bad_pair atoms.now variables variable id }
{
    variables <= variable || place_of(atoms, id) == atoms.len()
}

// Check 9: a ragged list first, then the first bad pair.
pub fn check_told(atoms: &[u16], variables: u16, told: &[u16]) -> Result<(), Refusal>
    ensures { result ≡ told_fault_in atoms.now variables told.now }
{
    if told.len() % 2 != 0 {
        return Err(Refusal::BadAssignment(0));
    }
    let pairs = told.len() / 2;
    for m in 0..pairs {
        let variable = told[m * 2];
        let id = told[m * 2 + 1];
        if is_bad(atoms, variables, variable, id) {
            return Err(Refusal::BadAssignment(m));
        }
    }
    Ok(())
}

// One choice a variable: bit q for the atom at place q.
pub fn read_told(atoms: &[u16], told: &[u16], choices: &mut [u64])
    requires readable { Readable atoms.now told.now }
    requires choices_value { choices.old ≡ replicate 8 0 }
    ensures { ToldChoices atoms.now told.now choices.new }
{
    let pairs = told.len() / 2;
    for m in 0..pairs {
        let variable = told[m * 2] as usize;
        let place = place_of(atoms, told[m * 2 + 1]);
        choices[variable] = choices[variable] | (1 << place);
    }
}
