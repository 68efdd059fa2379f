// The group of a question: the variables that it reaches through shared ones, and the questions that hold one of these. Sets of
// variables are 8-bit numbers with bit k for variable k.
ghost use Rattle.std.specs.Prelude.{◌≡◌, ℕ, ◌<◌, ◌≤◌, length, get_or};
ghost use Rattle.subsumption.specs.Lent.{lent};
ghost use Rattle.subsumption.specs.Inner.Lent.{given};
ghost use Rattle.subsumption.specs.Tables.{pairs_of};
ghost use Rattle.subsumption.specs.Atoms.{bit};
ghost use Rattle.subsumption.specs.Inner.Atoms.{Known};
ghost use Rattle.subsumption.specs.Inner.Listing.{Accepted};
ghost use Rattle.groups.specs.Inner.Group.{set_at, swept, reached_by, belongs, GroupSet};

use subsumption::Tables;
use subsumption::helpers::{pair_at, write_sets};
use subsumption::limits::CONCEPTS;

// A walk that brings anything brings a variable more, so that eight are enough.
const WALKS: usize = 8;

// The variables of a question, those of both sides.
fn set_of(sets: &[u8], questions: &[u16], m: usize) -> u8
    requires known { Known (length sets.now) questions.now }
    requires m_bound { m < pairs_of questions.now }
    ensures { result ≡ set_at (λ i. get_or sets.now i 0) questions.now m }
{
    let pair = pair_at(questions, m);
    sets[pair.left as usize] | sets[pair.right as usize]
}

// One walk over the questions: one that holds a reached variable brings all that it holds.
fn sweep(sets: &[u8], questions: &[u16], from: u8) -> u8
    requires { Known (length sets.now) questions.now }
    ensures { result ≡ swept (set_at (λ i. get_or sets.now i 0) questions.now) (pairs_of questions.now) from }
{
    let count = questions.len() / 2;
    let mut reached = from;
    for m in 0..count {
        let set = set_of(sets, questions, m);
        if reached & set != 0 {
            reached = reached | set;
        }
    }
    reached
}

// The variables that the question reaches.
fn reach(sets: &[u8], questions: &[u16], m: usize) -> u8
    requires known { Known (length sets.now) questions.now }
    requires m_bound { m < pairs_of questions.now }
    ensures { result ≡ reached_by (λ i. get_or sets.now i 0) questions.now m }
{
    let mut reached = set_of(sets, questions, m);
    for _ in 0..WALKS {
        let more = sweep(sets, questions, reached);
        reached = more;
    }
    reached
}

// Whether a question with the set is among those that reached so much: it holds a reached variable, or there is none on either side.
fn is_among(reached: u8, set: u8) -> bool
    ensures { result ≡ belongs reached set }
{
    if reached & set != 0 {
        return true;
    }
    (reached == 0) & (set == 0)
}

// The questions that belong to those that reached so much, with bit n for question n.
fn gather(sets: &[u8], questions: &[u16], reached: u8) -> u64
    requires known { Known (length sets.now) questions.now }
    requires questions_bound { pairs_of questions.now ≤ 32 }
    ensures { (n : ℕ) → n < pairs_of questions.now → bit result n ≡ belongs reached (set_at (λ i. get_or sets.now i 0)
        questions.now n) }
{
    let count = questions.len() / 2;
    let mut group: u64 = 0;
    for n in 0..count {
        let set = set_of(sets, questions, n);
        if is_among(reached, set) {
            group = group | (1 << n);
        }
    }
    group
}

// The questions of the group of question m of accepted tables, with bit n for question n.
pub fn group_of(tables: Tables, ids: &[u16], m: usize) -> u64
    requires accepted { Accepted (given tables) ids.now }
    requires m_bound { m < pairs_of tables.questions.now }
    ensures { GroupSet (lent tables) m result }
{
    let mut sets = [0u8; CONCEPTS];
    write_sets(tables.concepts, &mut sets);
    let reached = reach(&sets, tables.questions, m);
    gather(&sets, tables.questions, reached)
}
