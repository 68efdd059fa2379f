// Tests of the questions of one kind, with what came of them kept, so that most partial choices cost none. The questions with a
// variable on the right want fewer atoms, the others more: what passes passes with every easier choice, and what fails fails with
// every harder one. For each kind and outcome there is a ring of the last sixteen choices that were tested.
ghost use Rattle.std.specs.Prelude.{◌≡◌, ◌≤◌, length};
ghost use Rattle.matching.specs.Inner.Search.Problem.{Shaped};
ghost use Rattle.matching.specs.Inner.Sizes.{scratch_size};
ghost use Rattle.allowance.specs.Inner.Kept.{ring_at, FollowsIf, Recalled, Noted, Tried};
ghost use Rattle.allowance.specs.Inner.Sizes.{kept_size};

use matching::helpers::{QUESTION_COUNT, failing_of, fetch, is_within, put};

const RING: usize = 16;

// Of a ring, the words: eight a choice, and how many were noted.
const WORDS: usize = 129;

const NOTED: usize = 128;

pub const KEPT: usize = 516;

// Where the ring of a kind and an outcome starts.
fn ring_at(right: bool, passed: bool) -> usize
    ensures { (result ≡ ring_at right passed) × (result ≤ 387) }
{
    if right {
        if passed {
            return WORDS + WORDS + WORDS;
        }
        return WORDS + WORDS;
    }
    if passed {
        return WORDS;
    }
    0
}

// Whether what came of the other choice comes of this one: for a pass this one is no harder, for a failure no easier.
fn follows(choice: [u64; 8], other: [u64; 8], right: bool, passed: bool) -> bool
    requires { (length choice ≡ 8) × (length other ≡ 8) }
    ensures { FollowsIf result right passed choice other }
{
    if right == passed {
        return is_within(choice, other);
    }
    is_within(other, choice)
}

// Whether the outcome follows from a choice in its ring.
fn is_known(kept: &[u64], choice: [u64; 8], right: bool, passed: bool) -> bool
    requires { (length kept.now ≡ kept_size) × (length choice ≡ 8) }
    ensures { Recalled kept.now choice right passed result }
{
    let ring = ring_at(right, passed);
    let noted = kept[ring + NOTED];
    for i in 0..RING {
        if i as u64 >= noted {
            return false;
        }
        let other = fetch(kept, ring + i * 8);
        if follows(choice, other, right, passed) {
            return true;
        }
    }
    false
}

// Notes a choice in a ring, in the place of the oldest.
fn note(kept: &mut [u64], choice: [u64; 8], right: bool, passed: bool)
    requires { (length kept.old ≡ kept_size) × (length choice ≡ 8) }
    ensures { Noted kept.old kept.new choice right passed }
{
    let ring = ring_at(right, passed);
    let noted = kept[ring + NOTED];
    let at = (noted % 16) as usize;
    put(kept, ring + at * 8, choice);
    if noted < 31 {
        kept[ring + NOTED] = noted + 1;
        return;
    }
    kept[ring + NOTED] = 16;
}

// Whether all questions of the kind hold under the choice, by a test; what came of it is kept.
fn test(
    sets: &[u64],
    problem: &[u16],
    scratch: &mut [u64],
    kept: &mut [u64],
    choice: [u64; 8],
    right: bool,
) -> bool
    requires shaped { Shaped sets.now problem.now }
    requires scratch_len { (length scratch.old ≡ scratch_size) × (length kept.old ≡ kept_size) }
    requires choice_len { length choice ≡ 8 }
    ensures { Tried sets.now problem.now choice right kept.old kept.new result }
{
    let m = failing_of(sets, problem, scratch, choice, right);
    if m < problem[QUESTION_COUNT] as usize {
        note(kept, choice, right, false);
        return false;
    }
    note(kept, choice, right, true);
    true
}

// Whether all questions of the kind hold under the choice.
pub fn holds(
    sets: &[u64],
    problem: &[u16],
    scratch: &mut [u64],
    kept: &mut [u64],
    choice: [u64; 8],
    right: bool,
) -> bool
    requires shaped { Shaped sets.now problem.now }
    requires scratch_len { (length scratch.old ≡ scratch_size) × (length kept.old ≡ kept_size) }
    requires choice_len { length choice ≡ 8 }
    ensures { Tried sets.now problem.now choice right kept.old kept.new result }
{
    if is_known(kept, choice, right, true) {
        return true;
    }
    if is_known(kept, choice, right, false) {
        return false;
    }
    test(sets, problem, scratch, kept, choice, right)
}
