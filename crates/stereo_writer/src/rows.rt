// Rows of indices, put into the scratch array as words of their differences.
ghost use Rattle.std.specs.Prelude.{◌<◌, ◌≤◌, pos, ◌≡◌, [], take, get_or};
ghost use Rattle.bits.specs.Spelled.{spell_each};
ghost use Rattle.tables.specs.Tables.{spell_word};
ghost use Rattle.tables.specs.GeneratedNames.{table_at};
ghost use Rattle.stereo_indices.specs.Kind.{bands};
ghost use Rattle.stereo_indices.specs.Indices.{reference};
ghost use Rattle.stereo_writer.specs.InnerWrote.{Wrote, Room};
ghost use Rattle.stereo_writer.specs.Spelling.{entry_to, spell_index, spell_row, spell_rows};

use crate::scratch::Scratch;
use stereo_indices::{Kind, Record, Row, kinds, steps};
use tables::StereoWords;

// The entry whose difference leads from one index to another.
fn entry_to(kind: Kind, mode: u32, x: i8, y: i8) -> u32
    ensures { result ≡ entry_to kind mode x y }
{
    if kinds::is_phase(kind) {
        return (steps::magnitude(y) + 8 - steps::magnitude(x) % 8) % 8;
    }
    let step = y as i16 - x as i16 + steps::middle(kind, mode);
    step.unsigned_abs() as u32
}

// The word of an entry.
fn put_word(w: &mut Scratch, table: usize, entry: u32, words: &StereoWords)
    requires { Room 20 w.old × (12 ≤ table) × (table < 22) }
    ensures { Wrote 20 w.old (spell_word (table_at table) entry) w.new }
{
    let word = words.word(table, entry as usize);
    w.put(word.code, word.len as usize);
}

// What an index is coded from: that of the record or the one before it, or 0.
fn reference(time: u32, before: [i8; 34], xs: [i8; 34], i: usize) -> i8
    requires { i < 34 }
    ensures { result ≡ reference time before (take i xs) }
{
    if time == 1 {
        return before[i];
    }
    if i == 0 {
        return 0;
    }
    xs[i - 1]
}

// The entry of an index.
fn entry_at(kind: Kind, mode: u32, time: u32, before: [i8; 34], xs: [i8; 34], i: usize) -> u32
    requires { i < 34 }
    ensures { result ≡ entry_to kind mode (reference time before (take i xs)) (get_or xs i (pos 0)) }
{
    entry_to(kind, mode, reference(time, before, xs, i), xs[i])
}

// The words of a row's indices, after the record before it.
fn put_indices(
    w: &mut Scratch,
    kind: Kind,
    mode: u32,
    time: u32,
    before: [i8; 34],
    xs: [i8; 34],
    words: &StereoWords,
)
    requires { Room 680 w.old }
    ensures { Wrote 680 w.old (spell_each (spell_index kind mode time before) [] (take (bands kind mode) xs)) w.new }
{
    let count = kinds::bands(kind, mode);
    let table = steps::difference_table(kind, mode, time);
    for i in 0..count {
        put_word(w, table, entry_at(kind, mode, time, before, xs, i), words);
    }
}

// A row: its time flag, and its indices.
pub fn put_row(w: &mut Scratch, kind: Kind, mode: u32, rec: Record, row: Row, words: &StereoWords)
    requires { Room 681 w.old }
    ensures { Wrote 681 w.old (spell_row kind mode rec row) w.new }
{
    w.put(row.time, 1);
    put_indices(w, kind, mode, row.time, rec.indices, row.indices, words);
}

// The rows of a kind in n envelopes, each after those before it; not enabled, it has none.
pub fn put_rows(
    w: &mut Scratch,
    kind: Kind,
    on: bool,
    mode: u32,
    rec: Record,
    n: usize,
    rows: [Row; 4],
    words: &StereoWords,
)
    requires { Room 2724 w.old }
    ensures { Wrote 2724 w.old (spell_rows kind on mode rec n rows) w.new }
{
    if !on {
        return;
    }
    let sent = &rows[..n.min(4)];
    let mut last = rec;
    for row in sent {
        put_row(w, kind, mode, last, *row, words);
        last = Record {
            mode,
            indices: row.indices,
        };
    }
}
