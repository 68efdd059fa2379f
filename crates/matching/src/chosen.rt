// Listing one variable's chosen ids.
ghost use Rattle.std.specs.Prelude.{◌≡◌, ◌<◌, ◌≤◌, ◌^◌, length, get_or};
ghost use Rattle.subsumption.specs.Lent.{lent};
ghost use Rattle.subsumption.specs.Atoms.{pick, chosen};
ghost use Rattle.subsumption.specs.Refusal.{reply_with, reply_of, value_reply};
ghost use Rattle.subsumption.specs.Inner.Atoms.{in_front};
ghost use Rattle.matching.specs.Chosen.{choosing_fault, chosen_in, handed_back, Chooses};
ghost use Rattle.matching.specs.Inner.Chosen.{known_fault, earlier_of, told_of};

use subsumption::helpers::check_assignment;
use subsumption::limits::ATOMS;
use subsumption::refusal::{Refusal, code_of};
use subsumption::{Tables, list_atoms};

// What is told beside the list.
#[derive(Clone, Copy)]
pub struct Told {
    pub number: u16,
    pub place: usize,
    pub count: usize,
}

// The ids at the places where the choice has a one, in front of the buffer; answers their number.
fn put_picked(ids: &[u16], choice: u64, out: &mut [u16]) -> usize
    requires ids_len_bound { length ids.now ≤ 64 }
    requires choice_bound { choice < 2 ^ length ids.now }
    requires in_bounds { 64 ≤ length out.old }
    ensures value { result ≡ length (pick ids.now choice) }
    ensures out_value { out.new ≡ in_front (pick ids.now choice) out.old }
{
    let count = u64::count_ones(choice) as usize;
    let mut rest = choice;
    for listed in 0..count {
        let position = u64::trailing_zeros(rest) as usize;
        out[listed] = ids[position];
        rest = rest & (rest - 1);
    }
    count
}

// The variable's number, checks 9 and 8, and then the list: what is left where the tables passed and their atoms are listed.
fn put_known(
    ids: &[u16],
    variables: u16,
    assignment: &[u64],
    variable: u16,
    out: &mut [u16],
) -> Result<usize, Refusal>
    requires { length ids.now ≤ 64 }
    ensures result_value { value_reply result ≡ reply_with
        (known_fault (length ids.now) variables assignment.now variable (length out.old))
        (length (pick ids.now (get_or assignment.now variable 0))) }
    ensures out_value { out.new ≡ chosen_in
        (known_fault (length ids.now) variables assignment.now variable (length out.old))
        (pick ids.now (get_or assignment.now variable 0)) out.old }
{
    if variables <= variable {
        return Err(Refusal::Malformed(0));
    }
    check_assignment(assignment, variables, ids.len())?;
    if out.len() < ATOMS {
        return Err(Refusal::BufferTooShort(ATOMS));
    }
    let choice = assignment[variable as usize];
    Ok(put_picked(ids, choice, out))
}

// The tables are refused: the variable's number comes before all but check 1.
fn refused_with(r: Refusal, known: bool) -> Refusal
    ensures { result ≡ earlier_of r known }
{
    if known {
        return r;
    }
    let code = code_of(r);
    if code.number == 1 {
        return r;
    }
    Refusal::Malformed(0)
}

// Lists one variable's chosen ids in front of the buffer.
pub fn put_chosen(
    tables: Tables,
    assignment: &[u64],
    variable: u16,
    out: &mut [u16],
) -> Result<usize, Refusal>
    ensures { Chooses (lent tables) assignment.now variable
        out.old out.new (value_reply result) }
{
    let mut ids = [0u16; ATOMS];
    let atoms = list_atoms(tables, &mut ids);
    match atoms {
        Err(r) => Err(refused_with(r, variable < tables.variables)),
        Ok(count) => put_known(&ids[..count], tables.variables, assignment, variable, out),
    }
}

// What an answer tells beside the list: after a refusal the whole buffer goes back.
fn tell(answer: Result<usize, Refusal>, size: usize) -> Told
    ensures { result ≡ told_of answer size }
{
    match answer {
        Ok(n) => Told {
            number: 0,
            place: 0,
            count: n,
        },
        Err(r) => {
            let code = code_of(r);
            Told {
                number: code.number,
                place: code.place,
                count: size,
            }
        }
    }
}

// Lists one variable's chosen ids, rising, and hands the list back as the written stretch of the buffer. A refusal stands beside the whole
// buffer, handed back as it was.
pub fn list_chosen<'a>(
    tables: Tables,
    assignment: &[u64],
    variable: u16,
    out: &'a mut [u16],
    number: &mut u16,
    place: &mut u64,
) -> &'a mut [u16]
    ensures result_value { result.now ≡ handed_back
        (choosing_fault (lent tables) assignment.now variable (length out.old))
        (chosen (lent tables) assignment.now variable) out.old }
    ensures number_value { number.new ≡ (reply_of
        (choosing_fault (lent tables) assignment.now variable (length out.old))).number }
    ensures place_value { place.new ≡ (reply_of
        (choosing_fault (lent tables) assignment.now variable (length out.old))).place }
{
    let size = out.len();
    let answer = put_chosen(tables, assignment, variable, out);
    let told = tell(answer, size);
    *number = told.number;
    *place = told.place as u64;
    let count = told.count;
    &mut out[..count]
}
