// Holding a call that builds tables.

ghost use Rattle.std.specs.Prelude.{◌<◌, ◌^◌};

use crate::call::{Buffer, Call};
use crate::fit::Lent;
use crate::hold::{Held, held_work, same};
use crate::lend::{Buffers, cut, cut_mut, tables};
use crate::log::Log;
use crate::tests::Verdict;
use crate::{calls, fit};

// Holds a build that is to answer `want`, in buffers that are large enough for the sheet's parts and a cell more.
pub fn hold(want: Verdict, held: Held, lent: Lent, work: &mut [u16], log: &mut Log) {
    if held.sheet.n < 514 {
        in_buffers::<3079, 12814, 5131, 514>(want, held, lent, work, log);
    } else {
        in_buffers::<98305, 540657, 245761, 16385>(want, held, lent, work, log);
    }
}

// Fills the tables with junk, builds them and holds them.
fn in_buffers<const LABEL: usize, const TOUR: usize, const LIFT: usize, const ORDER: usize>(
    want: Verdict,
    held: Held,
    lent: Lent,
    work: &mut [u16],
    log: &mut Log,
)
    requires label { LABEL < 2 ^ 20 }
    requires tour { TOUR < 2 ^ 20 }
    requires lift { LIFT < 2 ^ 20 }
    requires order { ORDER < 2 ^ 20 }
{
    let mut label = [0u16; LABEL];
    let mut tour = [0u16; TOUR];
    let mut lift = [0u16; LIFT];
    let mut order = [0u16; ORDER];
    let mut buffers = Buffers {
        label: cut_mut(&mut label, lent.label),
        tour: cut_mut(&mut tour, lent.tour),
        lift: cut_mut(&mut lift, lent.lift),
        order: cut_mut(&mut order, lent.order),
    };
    buffers.fill();
    let came = calls::build(cut(held.sheet.cells, lent.sheet), &mut buffers, work);
    same(Call::Build, want, came, log);
    held_work(Call::Build, want, work, log);
    if want.is_err() {
        refused(&buffers, log);
    } else {
        accepted(&buffers, tables(held, lent), log);
    }
}

// Each table is as it was.
fn refused(buffers: &Buffers, log: &mut Log) {
    log.kept(Call::Build, Buffer::Label, buffers.label);
    log.kept(Call::Build, Buffer::Tour, buffers.tour);
    log.kept(Call::Build, Buffer::Lift, buffers.lift);
    log.kept(Call::Build, Buffer::Order, buffers.order);
    log.refusals = log.refusals.saturating_add(1);
}

// Each cell of the tables is the sheet's own.
fn accepted(buffers: &Buffers, own: tree::Lent, log: &mut Log) {
    log.same(Call::Build, Buffer::Label, own.label, buffers.label);
    log.same(Call::Build, Buffer::Tour, own.tour, buffers.tour);
    log.same(Call::Build, Buffer::Lift, own.lift, buffers.lift);
    log.same(Call::Build, Buffer::Order, own.order, buffers.order);
    log.cells = log.cells.saturating_add(fit::tables(own.parents.len()));
}
