// Of each element both ends of the stretch of rows that has its names, the first row and the one past the last, and the same of its
// links: four numbers an element. Rows sorted by element make short stretches, and the walk looks nowhere else.
ghost use Rattle.std.specs.Prelude.{◌≡◌, replicate};
ghost use Rattle.countermodel.specs.Inner.Membership.{LowRows, Stretches};

pub fn note_stretches(rows: &[u16], ends: &mut [usize])
    requires low_rows { LowRows rows.now }
    requires ends_value { ends.old ≡ replicate 768 0 }
    ensures { Stretches rows.now ends.new }
{
    let count = rows.len() / 4;
    for p in 0..count {
        let at = p * 4;
        let kind = rows[at] as usize;
        let element = rows[at + 1] as usize;
        let place = element * 4 + kind * 2;
        let past = ends[place + 1];
        ends[place + 1] = p + 1;
        if past == 0 {
            ends[place] = p;
        }
    }
}
