// Which roles count as which: for each role the set of those that do, two words a role. One pair is added at a time, as in
// `wider_to`, so that chains and circles need no rounds.
ghost use Rattle.std.specs.Prelude.{◌≡◌, ℕ, ◌<◌, length, replicate};
ghost use Rattle.subsumption.specs.Tables.{pairs_of};
ghost use Rattle.subsumption.specs.Inner.Roles.{in_set, LowRoles, Started, Joined, Widened, RoleSets};
ghost use Rattle.subsumption.specs.Inner.Sizes.{roles_size};

use crate::limits::ROLE_WORDS;

// The role r counts as the role s.
pub fn counts(into: &[u64; ROLE_WORDS], r: usize, s: usize) -> bool
    requires r_bound { (r < 100) × (s < 100) }
    ensures { result ≡ in_set into.now r s }
{
    (into[s * 2 + r / 64] >> (r % 64)) % 2 == 1
}

// Each role counts as itself.
fn start(into: &mut [u64; ROLE_WORDS])
    requires { into.old ≡ replicate roles_size 0 }
    ensures { Started into.new }
{
    for s in 0..100 {
        into[s * 2 + s / 64] = 1 << (s % 64);
    }
}

// What counts as one role counts as the other.
fn join(into: &mut [u64; ROLE_WORDS], from: usize, to: usize)
    requires from_bound { (from < 100) × (to < 100) }
    ensures { Joined into.old into.new from to }
{
    let low = into[from * 2];
    let high = into[from * 2 + 1];
    into[to * 2] = into[to * 2] | low;
    into[to * 2 + 1] = into[to * 2 + 1] | high;
}

// One pair more: what counts as the narrow role counts as all that the wide one does. The narrow role's own set stays in its turn.
fn widen(into: &mut [u64; ROLE_WORDS], narrow: usize, wide: usize)
    requires narrow_bound { (narrow < 100) × (wide < 100) }
    ensures { Widened into.old into.new narrow wide }
{
    for s in 0..100 {
        if counts(into, wide, s) {
            join(into, narrow, s);
        }
    }
}

pub fn note_roles(roles: &[u16], into: &mut [u64; ROLE_WORDS])
    requires low_roles { LowRoles roles.now }
    requires into_value { into.old ≡ replicate roles_size 0 }
    ensures { RoleSets roles.now into.new }
{
    start(into);
    let rows = roles.len() / 2;
    for m in 0..rows {
        let narrow = roles[m * 2] as usize;
        let wide = roles[m * 2 + 1] as usize;
        widen(into, narrow, wide);
    }
}
