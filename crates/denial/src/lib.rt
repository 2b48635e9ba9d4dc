// The denials of a row, each with what it brings and its own rows; and the rows of antiscenario m, one denial of each consequent, in memory.
#![tactic(auto)]

ghost use Rattle.std.specs.Prelude.{◌≡◌, [], ◌∷◌, ◌+◌, ◌*◌, ◌≤◌, ◌<◌, length};
ghost use Rattle.rules.specs.Numbers.{most_consequents, most_rows};
ghost use Rattle.sheet.specs.Numbers.{sheet_room};
ghost use Rattle.row.specs.Row.{six};
ghost use Rattle.row.specs.Memory.{lay, line_in, lines_in};
ghost use Rattle.sheet.specs.Count.{weight, weigh_line, product};
ghost use Rattle.introduction.specs.Bringing.{NoneBefore};
ghost use Rattle.denial.specs.Build.{own, free_rows, inside_of, denied, denial_from, of_section, built};

// Half of a set, with all its events: both halves are taken from it where EVENT is denied.
const FULL_HALF: u32 = 4294967295;

fn row(section: u32, kind: u32, p: u32, q: u32, a: u32, b: u32) -> row::Line
    ensures { result ≡ six section kind p q a b }
{
    row::Line {
        section,
        kind,
        p,
        q,
        a,
        b,
    }
}

fn before(section: u32, p: u32, q: u32) -> row::Line
    ensures { result ≡ six section 6 p q 0 0 }
{
    row(section, 6, p, q, 0, 0)
}

// r on the inner side of an end e, which is the start or the close, seen from p.
fn inside(section: u32, r: u32, e: u32, p: u32) -> row::Line
    ensures { result ≡ inside_of section r e p }
{
    if e == 0 {
        before(section, r, p)
    } else {
        before(section, p, r)
    }
}

// The row that denies a row of a kind other than FREE, whose far end is given; v tells BEFORE's two denials apart. Accepted rows have no other kinds.
fn deny_line(line: row::Line, v: u64, far: u32) -> row::Line
    requires { (v < weight line.kind line.p line.q) × (line.kind ≡ 9 → ⊥) }
    ensures { own far line v ≡ result ∷ [] }
{
    let s = line.section;
    let p = line.p;
    let q = line.q;
    let kind = line.kind;
    match kind {
        2 => row(s, 9, q, far, line.a, line.b),
        3 => row(s, 9, far, q, line.a, line.b),
        6 if v == 0 => before(s, q, p),
        6 => row(s, 8, p, q, 0, 0),
        7 => row(s, 8, p, q, 0, 0),
        8 => row(s, 7, p, q, 0, 0),
        10 => row(s, 11, p, q, line.a, line.b),
        11 => row(s, 10, p, q, line.a, line.b),
        12 => row(s, 12, p, 0, FULL_HALF - line.a, FULL_HALF - line.b),
        _ => row(s, 8, 0, 0, 0, 0),
    }
}

// Stores the own rows of denial v of FREE; gives where they end.
fn deny_free(line: row::Line, v: u64, out: &mut [u32], at: usize) -> usize
    requires { (line.section ≤ 100) × (at ≤ 1900) }
    ensures ends { result ≡ at + length (free_rows line.section (10 * line.section + 9) line.p line.q line.a line.b v) }
    ensures memory { out.new ≡ lay at (free_rows line.section (10 * line.section + 9) line.p line.q line.a line.b v) out.old }
{
    let s = line.section;
    let p = line.p;
    let q = line.q;
    let r = 10 * s + 9;
    row::put_line(out, at, row(s, 1, r, 0, line.a, line.b));
    match (sheet::is_edge(p), sheet::is_edge(q)) {
        (true, true) => at + 1,
        (true, false) => {
            row::put_line(out, at + 1, inside(s, r, p, q));
            at + 2
        }
        (false, true) => {
            row::put_line(out, at + 1, inside(s, r, q, p));
            at + 2
        }
        (false, false) => {
            let (lower, higher) = if v == 0 { (p, q) } else { (q, p) };
            row::put_line(out, at + 1, before(s, lower, r));
            row::put_line(out, at + 2, before(s, r, higher));
            at + 3
        }
    }
}

// Stores the own rows of denial v of a row, whose far end is given; gives where they end.
fn own_rows(line: row::Line, v: u64, far: u32, out: &mut [u32], at: usize) -> usize
    requires { (v < weight line.kind line.p line.q) × (line.section ≤ 100) × (at ≤ 1900) }
    ensures ends { result ≡ at + length (own far line v) }
    ensures memory { out.new ≡ lay at (own far line v) out.old }
{
    if line.kind == 9 {
        return deny_free(line, v, out, at);
    }
    row::put_line(out, at, deny_line(line, v, far));
    at + 1
}

// Stores denial v of row number i, from 0: the rows that it brings and its own; gives where they end. Its section begins at row `from` or later.
fn deny_row(
    rows: &[u32],
    n: usize,
    from: usize,
    i: usize,
    v: u64,
    out: &mut [u32],
    at: usize,
) -> usize
    requires { (6 * n ≤ length rows.now) × (i < n) × (n ≤ most_rows) × (at ≤ 1500) × ((line_in rows.now i).section ≤ 100) × (v < weigh_line (line_in rows.now i).section (line_in rows.now i)) × NoneBefore rows.now (line_in rows.now i).section from }
    ensures ends { result ≡ at + length (denied rows.now n i v) }
    ensures memory { out.new ≡ lay at (denied rows.now n i v) out.old }
{
    let line = row::line_at(rows, i);
    let mut marks = [0u32; pattern::POINT_NUMBERS];
    introduction::mark_uses(&mut marks, line);
    let end = introduction::bring(rows, from, i, line.section, &mut marks, out, at);
    own_rows(line, v, order::far_end(rows, n, line), out, end)
}

// Stores denial j of a section's; gives where its rows end.
fn deny_section(rows: &[u32], n: usize, section: u32, j: u64, out: &mut [u32], at: usize) -> usize
    requires { (sheet_room ≤ length rows.now) × (n ≤ most_rows) × (section ≤ 100) × (at ≤ 1500) }
    ensures ends { result ≡ at + length (denial_from rows.now n section 0 n j) }
    ensures memory { out.new ≡ lay at (denial_from rows.now n section 0 n j) out.old }
{
    let from = introduction::first_of(rows, n, section);
    let mut left = j;
    for i in from..n {
        let w = sheet::weigh_at(rows, i, section);
        if left < w {
            return deny_row(rows, n, from, i, left, out, at);
        }
        left -= w;
    }
    at
}

// Stores the rows of a section; gives how many.
fn copy_section(rows: &[u32], n: usize, section: u32, out: &mut [u32]) -> usize
    requires { (sheet_room ≤ length rows.now) × (n ≤ most_rows) }
    ensures ends { result ≡ length (of_section section (lines_in rows.now 0 n)) }
    ensures memory { out.new ≡ lay 0 (of_section section (lines_in rows.now 0 n)) out.old }
{
    let mut at = 0;
    for i in 0..n {
        let line = row::line_at(rows, i);
        if line.section == section {
            row::put_line(out, at, line);
            at += 1;
        }
    }
    at
}

// Stores the rows of antiscenario j + 1 of a sheet in memory, whose count is given; gives how many.
pub fn build(rows: &[u32], n: usize, k: u32, count: u64, j: u64, out: &mut [u32]) -> usize
    requires { (sheet_room ≤ length rows.now) × (n ≤ most_rows) × (k ≤ most_consequents) × (1 ≤ count) × (count ≡ product 1 k (lines_in rows.now 0 n)) }
    ensures ends { result ≡ length (built rows.now n k j) }
    ensures memory { out.new ≡ lay 0 (built rows.now n k j) out.old }
{
    let mut denials = [0u64; sheet::SECTIONS];
    sheet::weigh_sections(rows, n, &mut denials);
    let mut at = copy_section(rows, n, 0, out);
    let mut total = count;
    let mut left = j;
    for s in 1..=k {
        total /= denials[s as usize];
        at = deny_section(rows, n, s, left / total, out, at);
        left %= total;
    }
    at
}
