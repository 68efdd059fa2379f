// The card of a catalogue as bytes, in front of a buffer.
ghost use Rattle.std.specs.Prelude.{◌≤◌, length};
ghost use Rattle.numerals.specs.Printing.{Output};
ghost use Rattle.hermitcasket_owl.specs.Card.{Carded};

use crate::card::put_card;
use numerals::helpers::put_refused;
use owl::read_catalogue;
use subsumption::refusal::code_of;

// The whole program, from the text's bytes to the output's.
pub fn answer(text: &[u8], out: &mut [u8]) -> usize
    requires { 4096 ≤ length out.old }
    ensures { Output (Carded text.now) out.old result out.new }
{
    let mut concepts = [0u16; 576];
    let mut inclusions = [0u16; 192];
    let read = read_catalogue(text, &mut concepts, &mut inclusions);
    match read {
        Ok(catalogue) => {
            let n = catalogue.concepts * 3;
            let m = catalogue.inclusions * 2;
            put_card(&concepts[..n], &inclusions[..m], out)
        }
        Err(refusal) => {
            let code = code_of(refusal);
            put_refused(code, out)
        }
    }
}
