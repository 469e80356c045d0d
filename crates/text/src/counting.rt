// The tally: how many commands were answered 0, and how many were not.
ghost use Rattle.std.specs.Prelude.{◌+◌, ◌<◌, ◌≤◌, ◌≡◌};
ghost use Rattle.sheets.specs.Reports.{count_one};
ghost use Rattle.text.specs.Printing.{tally_of, as_counts, as_tally};

use crate::Tally;

// Records one answer in a tally that is lent: the form that document 01 names.
#[tactic(auto, unfolding(sheets::specs::Reports::count_one))]
fn record(tally: &mut Tally, answer: u8)
    requires { tally.old.done + tally.old.refused < 65535 }
    ensures { tally.new ≡ as_counts (count_one answer (as_tally tally.old)) }
{
    if answer == 0 {
        tally.done += 1;
    } else {
        tally.refused += 1;
    }
}

// The tally of the first n records.
#[tactic(auto, using(crate::proofs::Counts::tally_size, crate::proofs::Counts::tallied_next), unfolding(crate::specs::Printing::tally_of))]
pub fn tally_of(records: &[u8; 12288], n: u16) -> Tally
    requires { n ≤ 4096 }
    ensures { result ≡ as_counts (tally_of records.now n) }
{
    let mut tally = Tally {
        done: 0,
        refused: 0,
    };
    for i in 0..n {
        record(&mut tally, records[3 * i as usize]);
    }
    tally
}
