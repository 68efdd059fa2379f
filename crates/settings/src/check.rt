// The check of settings, and reading them.
ghost use Rattle.std.specs.Prelude.{◌≡◌, ◌<◌, ◌≤◌, length};
ghost use Rattle.settings.specs.Settings.{lent_settings, faulty_at, settings_fault_at};
ghost use Rattle.settings.specs.Inner.Check.{Loaded};

use subsumption::helpers::is_past;
use subsumption::limits::ATOMS;
use subsumption::refusal::Refusal;

// The settings that an operation is lent (02: permitted parts and largest counts): for each variable the atoms that it may take, and how
// many of them at most.
#[derive(Clone, Copy)]
pub struct Settings<'a> {
    pub permitted: &'a [u64],
    pub largest: &'a [u16],
}

// The settings of variable k are faulty.
fn is_faulty(settings: Settings, k: usize, atoms: usize) -> bool
    requires atoms_bound { atoms ≤ 64 }
    requires k_in_bounds { (k < length settings.permitted.now) × (k < length settings.largest.now) }
    ensures { result ≡ faulty_at atoms (lent_settings settings) k }
{
    is_past(settings.permitted[k], atoms) || settings.largest[k] > ATOMS as u16
}

// Check 19, given the number of atoms.
pub fn check_settings(settings: Settings, variables: u16, atoms: usize) -> Result<(), Refusal>
    requires { atoms ≤ 64 }
    ensures { result ≡ settings_fault_at atoms variables (lent_settings settings) }
{
    let count = variables as usize;
    if settings.permitted.len() != count {
        return Err(Refusal::BadSettings(count));
    }
    if settings.largest.len() != count {
        return Err(Refusal::BadSettings(count));
    }
    for k in 0..count {
        if is_faulty(settings, k, atoms) {
            return Err(Refusal::BadSettings(k));
        }
    }
    Ok(())
}

// The permitted atoms, none past the variables.
pub fn load_permitted(permitted: &[u64]) -> [u64; 8]
    requires { length permitted.now ≤ 8 }
    ensures { Loaded permitted.now result }
{
    let mut choice = [0u64; 8];
    choice[..permitted.len()].copy_from_slice(permitted);
    choice
}
