// Narrowing, once before the search: a question with variables on the right only gets harder with more atoms. So if it fails with one
// pair alone, no solution takes that pair, and the pair leaves the high side.
ghost use Rattle.std.specs.Prelude.{◌≡◌, true, ◌<◌, length};
ghost use Rattle.matching.specs.Inner.Search.Problem.{Shaped, held_at, right_at, question_count, AskedAt};
ghost use Rattle.matching.specs.Inner.Search.Narrow.{Narrowed};
ghost use Rattle.matching.specs.Inner.Sizes.{scratch_size};

use crate::limits::{ASKED, HELD, HOLDS, QUESTION_COUNT, SIDES};
use crate::search::pairs::{with_pair, without_pair};
use crate::search::patterns::question_holds;
use crate::search::sets::next_bit;

// By one question and variable.
fn narrow_variable(
    sets: &[u64],
    problem: &[u16],
    scratch: &mut [u64],
    m: usize,
    k: usize,
    full: [u64; 8],
) -> [u64; 8]
    requires shaped { Shaped sets.now problem.now }
    requires scratch_len { (length scratch.old ≡ scratch_size) × (length full ≡ 8) }
    requires m_bound { (m < question_count problem.now) × (k < 8) }
    requires asked_at { AskedAt problem.now m × (held_at problem.now (right_at problem.now m) ≡ true) }
    ensures result_len { length result ≡ 8 }
    ensures narrowed { Narrowed sets.now problem.now full result }
{
    let none = [0u64; 8];
    let mut high = full;
    let mut q = next_bit(full[k], 0);
    while q < 64 {
        let at = q;
        q = next_bit(full[k], at + 1);
        let alone = with_pair(none, k, at);
        if question_holds(sets, problem, scratch, m, alone) {
            continue;
        }
        let fewer = without_pair(high, k, at);
        high = fewer;
    }
    high
}

// By one question.
fn narrow_question(
    sets: &[u64],
    problem: &[u16],
    scratch: &mut [u64],
    m: usize,
    full: [u64; 8],
) -> [u64; 8]
    requires shaped { Shaped sets.now problem.now }
    requires scratch_len { (length scratch.old ≡ scratch_size) × (length full ≡ 8) }
    requires m_bound { m < question_count problem.now }
    ensures result_len { length result ≡ 8 }
    ensures narrowed { Narrowed sets.now problem.now full result }
{
    if problem[ASKED + m] != 1 {
        return full;
    }
    let right = problem[SIDES + m * 2 + 1] as usize;
    if problem[HELD + right] != 1 {
        return full;
    }
    let held = problem[HOLDS + m];
    let mut high = full;
    for k in 0..8 {
        if (held >> k) % 2 == 0 {
            continue;
        }
        let fewer = narrow_variable(sets, problem, scratch, m, k, high);
        high = fewer;
    }
    high
}

pub fn narrow(sets: &[u64], problem: &[u16], scratch: &mut [u64], full: [u64; 8]) -> [u64; 8]
    requires shaped { Shaped sets.now problem.now }
    requires scratch_len { (length scratch.old ≡ scratch_size) × (length full ≡ 8) }
    ensures result_len { length result ≡ 8 }
    ensures narrowed { Narrowed sets.now problem.now full result }
{
    let count = problem[QUESTION_COUNT] as usize;
    let mut high = full;
    for m in 0..count {
        let fewer = narrow_question(sets, problem, scratch, m, high);
        high = fewer;
    }
    high
}
