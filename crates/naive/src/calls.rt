// The calls under test, and what they answered in plain numbers.

use crate::call::Call;
use crate::lend::{Buffers, Outputs};
use crate::tests::{Refused, Said};
use tree::{Lent, Numbered, Refusal};

impl From<Refusal> for Refused {
    fn from(why: Refusal) -> Refused {
        let shown = Numbered::from(why);
        Refused {
            number: shown.number as usize,
            place: shown.place,
        }
    }
}

// The answer of a call that counts nothing.
fn said(r: Result<(), Refusal>) -> Said {
    r?;
    Ok(0)
}

// Builds the tables of a sheet.
pub fn build(sheet: &[u16], buffers: &mut Buffers, work: &mut [u16]) -> Said {
    said(tables::build(
        sheet,
        buffers.label,
        buffers.tour,
        buffers.lift,
        buffers.order,
        work,
    ))
}

// Makes a call on buffers that are lent; of a build, which has buffers of its own, the check that it begins with.
pub fn make(call: Call, lent: Lent, question: &[u16], outputs: &mut Outputs) -> Said {
    let work = &mut *outputs.work;
    let answer = &mut *outputs.answer;
    let rows = &mut *outputs.rows;
    match call {
        Call::Check | Call::Build => said(tables::check(lent.parents, work)),
        Call::Compare => said(tables::compare(lent, work)),
        Call::Labels => said(routes::pairs_by_labels(lent, work, question, answer)),
        Call::Tour => said(routes::pairs_by_tour(lent, work, question, answer)),
        Call::Lifts => said(routes::pairs_by_lifts(lent, work, question, answer)),
        Call::Trail => Ok(routes::trail(lent, work, question, answer, rows)?),
        Call::List => said(routes::list(lent, work, question, answer)),
    }
}
