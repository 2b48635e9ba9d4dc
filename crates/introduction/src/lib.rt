// The introducing rows that a denial brings: of the points that its row uses, and of the points those need in turn.
#![tactic(auto)]

ghost use Rattle.std.specs.Prelude.{◌≡◌, true, ◌+◌, ◌*◌, ◌-◌, ◌≤◌, ◌<◌, length, get_or, set, eqb};
ghost use Rattle.rules.specs.Numbers.{most_rows};
ghost use Rattle.row.specs.Memory.{lay, line_in};
ghost use Rattle.introduction.specs.Bringing.{NoneBefore, uses, marked, wanted, brought};

fn mark(marks: &mut [u32], p: u32)
    ensures { marks.new ≡ set marks.old p 1 }
{
    row::store(marks, p as usize, 1);
}

// Marks the points that a row uses, without the one it introduces.
pub fn mark_uses(marks: &mut [u32], line: row::Line)
    ensures { marks.new ≡ marked marks.old (uses line) }
{
    match line.kind {
        0..=1 => {}
        2..=3 => mark(marks, line.q),
        4..=5 => {
            mark(marks, line.q);
            mark(marks, line.a);
        }
        6..=11 => {
            mark(marks, line.p);
            mark(marks, line.q);
        }
        _ => mark(marks, line.p),
    }
}

fn is_marked(marks: &[u32], p: u32) -> bool
    ensures { result ≡ eqb (get_or marks.now p 0) 1 }
{
    pattern::at(marks, p) == 1
}

// Whether a row is of the section and introduces a marked point.
#[tactic(auto, unfolding(crate::specs::Bringing::wanted))]
fn is_wanted(marks: &[u32], section: u32, line: row::Line) -> bool
    ensures { result ≡ wanted marks.now section line }
{
    line.section == section && (1..=5).contains(&line.kind) && is_marked(marks, line.p)
}

// The number of the section's first row, from 0, or n where it has none.
pub fn first_of(rows: &[u32], n: usize, section: u32) -> usize
    requires { 6 * n ≤ length rows.now }
    ensures { (result ≤ n) × NoneBefore rows.now section result }
{
    (0..n)
        .find(|i| row::section_of(rows, *i) == section)
        .unwrap_or(n)
}

// How many of the first i rows there are up to the last of the section that introduces a marked point; 0 where there is none. The section
// begins at row `from` or later.
fn last_wanted(rows: &[u32], from: usize, i: usize, section: u32, marks: &[u32]) -> usize
    requires { (6 * i ≤ length rows.now) × NoneBefore rows.now section from }
    ensures same { (result ≤ i) × (brought rows.now section marks.now result ≡ brought rows.now section marks.now i) }
    ensures last { 0 < result → wanted marks.now section (line_in rows.now (result - 1)) ≡ true }
{
    for j in (from..i).rev() {
        if is_wanted(marks, section, row::line_at(rows, j)) {
            return j + 1;
        }
    }
    0
}

// Stores, of the first i rows, those of the section that introduce marked points, and the points that these need in turn; gives where they end.
// The section begins at row `from` or later.
pub fn bring(
    rows: &[u32],
    from: usize,
    i: usize,
    section: u32,
    marks: &mut [u32],
    out: &mut [u32],
    at: usize,
) -> usize
    requires { (6 * i ≤ length rows.now) × (i ≤ most_rows) × (at ≤ 1500) × NoneBefore rows.now section from }
    ensures ends { result ≡ at + length (brought rows.now section marks.old i) }
    ensures memory { out.new ≡ lay at (brought rows.now section marks.old i) out.old }
{
    // A recursion: a row is stored behind those that its points need, and waits for them on the stack, as there is no heap.
    let left = last_wanted(rows, from, i, section, marks);
    if left == 0 {
        return at;
    }
    let line = row::line_at(rows, left - 1);
    mark_uses(marks, line);
    let end = bring(rows, from, left - 1, section, marks, out, at);
    row::put_line(out, end, line);
    end + 1
}
