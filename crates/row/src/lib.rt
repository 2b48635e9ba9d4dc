// A row: its six numbers, read from 35 bytes and kept in memory.
#![tactic(auto)]

ghost use Rattle.std.specs.Prelude.{◌≡◌, ◌+◌, ◌*◌, ◌≤◌, length, set};
ghost use Rattle.row.specs.Row.{line_of};
ghost use Rattle.row.specs.Memory.{put, line_in, section_at, kind_at, p_at, q_at, a_at, b_at};

// Points: 0 is the start and 99 the close; the antecedent introduces up to 4, a consequent up to 8.
pub const START: u32 = 0;

pub const CLOSE: u32 = 99;

pub const ANTECEDENT_POINTS: u32 = 4;

pub const CONSEQUENT_POINTS: u32 = 8;

// Document 01, "Rows": section, kind, p, q, a, b. The kind is a number and no enum: document 01 has the decision over kinds 1 to 12 by ranges, and a row of another kind is read before it is refused.
#[derive(Clone, Copy)]
pub struct Line {
    pub section: u32,
    pub kind: u32,
    pub p: u32,
    pub q: u32,
    pub a: u32,
    pub b: u32,
}

// "4 malformed": the row in 35 bytes, where it is none; the part from a field's first column is handed to the number reader.
pub fn parse(row: &[u8]) -> Option<Line>
    requires { length row.now ≡ 35 }
    ensures { result ≡ line_of row.now }
{
    let section = columns::number(row, 3)?;
    let kind = columns::number(&row[3..], 3)?;
    let p = columns::number(&row[6..], 3)?;
    let q = columns::number(&row[9..], 3)?;
    let a = columns::number(&row[12..], 11)?;
    let b = columns::number(&row[23..], 11)?;
    if row[34] != 10 {
        return None;
    }
    Some(Line {
        section,
        kind,
        p,
        q,
        a,
        b,
    })
}

// Stores v at index i, where there is one.
pub fn store(m: &mut [u32], i: usize, v: u32)
    ensures { m.new ≡ set m.old i v }
{
    if i < m.len() {
        m[i] = v;
    }
}

// A row in memory is six numbers, in the order of the columns: row number i, from 0, begins at index 6i.
pub fn section_of(rows: &[u32], i: usize) -> u32
    requires { 6 * i + 6 ≤ length rows.now }
    ensures { result ≡ section_at rows.now i }
{
    rows[6 * i]
}

pub fn kind_of(rows: &[u32], i: usize) -> u32
    requires { 6 * i + 6 ≤ length rows.now }
    ensures { result ≡ kind_at rows.now i }
{
    rows[6 * i + 1]
}

pub fn p_of(rows: &[u32], i: usize) -> u32
    requires { 6 * i + 6 ≤ length rows.now }
    ensures { result ≡ p_at rows.now i }
{
    rows[6 * i + 2]
}

pub fn q_of(rows: &[u32], i: usize) -> u32
    requires { 6 * i + 6 ≤ length rows.now }
    ensures { result ≡ q_at rows.now i }
{
    rows[6 * i + 3]
}

pub fn a_of(rows: &[u32], i: usize) -> u32
    requires { 6 * i + 6 ≤ length rows.now }
    ensures { result ≡ a_at rows.now i }
{
    rows[6 * i + 4]
}

pub fn b_of(rows: &[u32], i: usize) -> u32
    requires { 6 * i + 6 ≤ length rows.now }
    ensures { result ≡ b_at rows.now i }
{
    rows[6 * i + 5]
}

// The whole row.
pub fn line_at(rows: &[u32], i: usize) -> Line
    requires { 6 * i + 6 ≤ length rows.now }
    ensures { result ≡ line_in rows.now i }
{
    Line {
        section: section_of(rows, i),
        kind: kind_of(rows, i),
        p: p_of(rows, i),
        q: q_of(rows, i),
        a: a_of(rows, i),
        b: b_of(rows, i),
    }
}

// Stores a row as number i, where there is room.
pub fn put_line(rows: &mut [u32], i: usize, line: Line)
    requires { i ≤ 2000 }
    ensures { rows.new ≡ put i line rows.old }
{
    store(rows, 6 * i, line.section);
    store(rows, 6 * i + 1, line.kind);
    store(rows, 6 * i + 2, line.p);
    store(rows, 6 * i + 3, line.q);
    store(rows, 6 * i + 4, line.a);
    store(rows, 6 * i + 5, line.b);
}
