// The rows of one kind: of each envelope a time flag and its indices.
ghost use Rattle.std.specs.Prelude.{◌≡◌, ◌≤◌};
ghost use Rattle.bits.specs.InnerAnswers.{answer_of, ended_answer, reads};
ghost use Rattle.stereo_indices.specs.Rows.{no_row, no_rows, allowed, row, rows_of, rows};

use crate::{Kind, Record, Row, indices, records};
use bits::{Answer, Bits, Ended, refused};
use tables::StereoLookups;

// A row of which nothing is sent.
#[tactic(auto, unfolding(crate::specs::Rows::no_row))]
pub fn no_row() -> Row
    ensures { result ≡ no_row }
{
    let indices = records::zeros();
    Row { time: 0, indices }
}

// Four rows that were not sent.
#[tactic(auto, unfolding(crate::specs::Rows::no_rows))]
pub fn no_rows() -> [Row; 4]
    ensures { result ≡ no_rows }
{
    let row = no_row();
    [row; 4]
}

// Whether a time flag stands: across frequency always, across time where the record's mode is the mode in force.
fn allowed(time: u32, rec: u32, mode: u32) -> bool
    ensures { result ≡ allowed rec mode time }
{
    time == 0 || records::agrees(rec, mode)
}

// One kind in one envelope, after the record that the one before left.
#[tactic(auto, unfolding(crate::specs::Rows::row))]
pub fn read_row(
    s: &Bits,
    at: usize,
    kind: Kind,
    mode: u32,
    rec: Record,
    lookups: &StereoLookups,
) -> Answer<Row>
    ensures { answer_of result ≡ reads (row kind mode rec) s.now at }
{
    let (time, after_time) = s.field(at, 1)?;
    if !allowed(time, rec.mode, mode) {
        return refused(31, at);
    }
    let before = rec.indices;
    let (indices, next) = indices::read_indices(s, after_time, kind, mode, time, before, lookups)?;
    Ok((Row { time, indices }, next))
}

// One kind in n envelopes, each after those before it: four rows are put where they are lent, those past the n-th not sent.
pub fn read_rows(
    s: &Bits,
    at: usize,
    kind: Kind,
    mode: u32,
    rec: Record,
    n: usize,
    lookups: &StereoLookups,
    rows: &mut [Row; 4],
) -> Ended
    requires { n ≤ 4 }
    ensures { ended_answer result rows.new ≡ reads (rows_of kind mode rec n) s.now at }
{
    *rows = no_rows();
    let mut last = rec;
    let mut place = at;
    for k in 0..n {
        let (row, next) = read_row(s, place, kind, mode, last, lookups)?;
        let indices = row.indices;
        last = Record { mode, indices };
        rows[k] = row;
        place = next;
    }
    Ok(place)
}

// One kind in n envelopes; not enabled, it gives zeros.
#[tactic(auto, unfolding(crate::specs::Rows::rows))]
pub fn read_kind(
    s: &Bits,
    at: usize,
    kind: Kind,
    on: bool,
    mode: u32,
    rec: Record,
    n: usize,
    lookups: &StereoLookups,
    lent: &mut [Row; 4],
) -> Ended
    requires { n ≤ 4 }
    ensures { ended_answer result lent.new ≡ reads (rows kind on mode rec n) s.now at }
{
    if !on {
        *lent = no_rows();
        return Ok(at);
    }
    read_rows(s, at, kind, mode, rec, n, lookups, lent)
}
