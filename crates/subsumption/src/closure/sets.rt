// Sets of ids, laid out as the columns are: three words a set.
ghost use Rattle.std.specs.Prelude.{◌≡◌, ◌+◌, ◌*◌, ◌<◌, ◌≤◌, length};
ghost use Rattle.subsumption.specs.Inner.Columns.{InThree};
ghost use Rattle.subsumption.specs.Inner.Links.{Inserted, Put, Joins, Union};
ghost use Rattle.subsumption.specs.Inner.Sizes.{columns_size};

use crate::closure::columns::Words;
use crate::limits::WORDS;

pub fn insert(sets: &mut [u64], to: usize, id: usize)
    requires id_bound { id < 192 }
    requires to_in_bounds { to * 3 + 3 ≤ length sets.old }
    ensures { Inserted sets.old sets.new to id }
{
    let at = to * 3 + id / 64;
    sets[at] = sets[at] | (1 << (id % 64));
}

pub fn put(sets: &mut [u64], to: usize, first: u64, second: u64, third: u64)
    requires { to * 3 + 3 ≤ length sets.old }
    ensures { Put sets.old sets.new to first second third }
{
    let at = to * 3;
    sets[at] = first;
    sets[at + 1] = second;
    sets[at + 2] = third;
}

// The set with all those, from the set `from` on, that the word picks.
fn join(sets: &[u64], from: usize, word: u64, set: Words) -> Words
    requires { from * 3 + 192 ≤ length sets.now }
    ensures { Joins sets.now from word (InThree set.first set.second set.third)
        (InThree result.first result.second result.third) }
{
    let mut first = set.first;
    let mut second = set.second;
    let mut third = set.third;
    let mut rest = word;
    while rest != 0 {
        let at = (from + u64::trailing_zeros(rest) as usize) * 3;
        first = first | sets[at];
        second = second | sets[at + 1];
        third = third | sets[at + 2];
        rest = rest & (rest - 1);
    }
    Words {
        first,
        second,
        third,
    }
}

// The union of all sets whose numbers the three words hold.
pub fn union(sets: &[u64; WORDS], first: u64, second: u64, third: u64) -> Words
    ensures { Union sets.now (InThree first second third) (InThree result.first result.second result.third) }
{
    let none = Words {
        first: 0,
        second: 0,
        third: 0,
    };
    let one = join(sets, 0, first, none);
    let two = join(sets, 64, second, one);
    join(sets, 128, third, two)
}
