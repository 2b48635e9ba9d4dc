// Rows over a log in memory: when a placement meets a row, the points of rows, and when a placement is a matching of them.
#![tactic(auto)]

ghost use Rattle.std.specs.Prelude.{◌≡◌, ◌&&◌, ◌≤◌, ◌<◌, length, get_or, take, ltb, leb};
ghost use Rattle.scenario.specs.Rows.{set_of as set_of, clear as clear_of, meets as meets_of, points as points_of};
ghost use Rattle.scenario.specs.Log.{has_at};
ghost use Rattle.scenario.specs.Sheet.{all, matching};
ghost use Rattle.scenario.specs.Reading.{Pattern, most_points};
ghost use Rattle.run.specs.Words.{events_in, line_count};
ghost use Rattle.run.specs.Held.{part, bare, run_held};
ghost use Rattle.pattern.specs.Meeting.{placed_by, ordered_by};
ghost use Rattle.scenario.specs.Fields.{decode};
ghost use Rattle.row.specs.Memory.{row_at, rows_of};
ghost use Rattle.pattern.specs.Placing.{puts, is_position, by};

// Point numbers are below 100; "99 the close".
pub const POINT_NUMBERS: usize = 100;

pub const CLOSE: usize = 99;

// "At most 58 points".
pub const MOST_POINTS: usize = 58;

// Room for 200 rows, more than an antiscenario has, six numbers to a row.
pub const ROWS_ROOM: usize = 1200;

// A row's five numbers (the kind as in row::Line), and the set whose halves a and b are where the kind has one.
#[derive(Clone, Copy)]
pub struct Row {
    pub kind: u32,
    pub p: u32,
    pub q: u32,
    pub a: u32,
    pub b: u32,
    pub set: u64,
}

// The position of a point; 0 for a number that the array does not have.
pub fn at(positions: &[u32], p: u32) -> u32
    ensures { result ≡ get_or positions.now p 0 }
{
    positions.get(p as usize).copied().unwrap_or(0)
}

// "The set is a + 2^32 × b."
pub fn set_of(a: u32, b: u32) -> u64
    ensures { result ≡ set_of a b }
{
    u64::from(a) + run::UPPER_ONE * u64::from(b)
}

// Row j of rows in memory, six numbers to a row.
pub fn row_at(rows: &[u32; ROWS_ROOM], j: u32) -> Row
    requires { j < 200 }
    ensures { decode result.kind result.p result.q result.a result.b result.set ≡ row_at rows.now j }
{
    let i = j as usize;
    let a = row::a_of(rows, i);
    let b = row::b_of(rows, i);
    Row {
        kind: row::kind_of(rows, i),
        p: row::p_of(rows, i),
        q: row::q_of(rows, i),
        a,
        b,
        set: set_of(a, b),
    }
}

// Whether x is the first position after y with its event in s.
fn follows(run: &run::Run, s: u64, x: u32, y: u32) -> bool
    ensures { result ≡ (ltb y x && has_at (part (events_in run.now.words) (line_count run.now.words)) s x && clear_of (bare (events_in run.now.words) (line_count run.now.words)) s y x) }
{
    y < x && run.has(s, x) && maps::clear(run, s, y, x)
}

// Whether x is the last position before y with its event in s.
fn precedes(run: &run::Run, s: u64, x: u32, y: u32) -> bool
    ensures { result ≡ (ltb x y && has_at (part (events_in run.now.words) (line_count run.now.words)) s x && clear_of (bare (events_in run.now.words) (line_count run.now.words)) s x y) }
{
    x < y && run.has(s, x) && maps::clear(run, s, x, y)
}

// The rules of kinds 2 to 5.
#[tactic(auto, unfolding(crate::specs::Meeting::placed_by))]
fn placed(run: &run::Run, kind: u32, s: u64, x: u32, y: u32, z: u32) -> bool
    ensures { result ≡ placed_by (bare (events_in run.now.words) (line_count run.now.words)) kind s x y z }
{
    match kind {
        2 => follows(run, s, x, y),
        3 => precedes(run, s, x, y),
        4 => x == y.min(z),
        _ => x == y.max(z),
    }
}

// The rules of kinds 6 to 8.
#[tactic(auto, unfolding(crate::specs::Meeting::ordered_by))]
fn ordered(kind: u32, x: u32, y: u32) -> bool
    ensures { result ≡ ordered_by kind x y }
{
    match kind {
        6 => x < y,
        7 => x != y,
        _ => x == y,
    }
}

// "Kinds of row and when a placement meets them": whether row j of rows in memory is met where its points have these positions, by point number.
pub fn meets(
    run: &run::Run,
    positions: &[u32; POINT_NUMBERS],
    rows: &[u32; ROWS_ROOM],
    j: u32,
) -> bool
    requires { j < 200 }
    ensures { result ≡ meets_of (run_held run.now.words) (by positions.now) (row_at rows.now j) }
{
    let row = row_at(rows, j);
    let kind = row.kind;
    let set = row.set;
    let x = at(positions, row.p);
    let y = at(positions, row.q);
    match kind {
        1 => run.has(set, x),
        2..=5 => placed(run, kind, set, x, y, at(positions, row.a)),
        6..=8 => ordered(kind, x, y),
        9 => maps::clear(run, set, x, y),
        10 => run.near(x, y, row.a, row.b),
        11 => !run.near(x, y, row.a, row.b),
        12 => run.has(set, x),
        _ => false,
    }
}

fn introduces(kind: u32) -> bool
    ensures { result ≡ (leb 1 kind && leb kind 5) }
{
    matches!(kind, 1..=5)
}

// The number of the points that the rows introduce; they are written to the front of `points` in order of introduction.
pub fn gather(rows: &[u32; ROWS_ROOM], count: u32, points: &mut [u32]) -> u32
    requires { (count ≤ 200) × (length (points_of (rows_of rows.now count)) ≤ length points.old) × (length (points_of (rows_of rows.now count)) ≤ most_points) }
    ensures number { result ≡ length (points_of (rows_of rows.now count)) }
    ensures points { take result points.new ≡ points_of (rows_of rows.now count) }
{
    let mut point_count: u32 = 0;
    for j in 0..count as usize {
        if introduces(row::kind_of(rows, j)) {
            points[point_count as usize] = row::p_of(rows, j);
            point_count += 1;
        }
    }
    point_count
}

// Stores the positions as those of the points, by point number.
fn put_points(points: &[u32], positions: &[u32], standing: &mut [u32])
    ensures { standing.new ≡ puts standing.old points.now positions.now }
{
    for (p, x) in points.iter().zip(positions) {
        row::store(standing, *p as usize, *x);
    }
}

// Whether each position is a line's, 1 to n.
fn all_lines(positions: &[u32], n: u32) -> bool
    ensures { result ≡ all (is_position n) positions.now }
{
    positions.iter().all(|x| (1..=n).contains(x))
}

// Whether all rows are met where their points have these positions, by point number.
fn all_met(
    run: &run::Run,
    positions: &[u32; POINT_NUMBERS],
    rows: &[u32; ROWS_ROOM],
    count: u32,
) -> bool
    requires { count ≤ 200 }
    ensures { result ≡ all (meets_of (run_held run.now.words) (by positions.now)) (rows_of rows.now count) }
{
    (0..count).all(|j| meets(run, positions, rows, j))
}

// Whether the first `point_count` positions are a matching of the rows, whose points, in order of introduction, are the first of `points`, as many.
pub fn is_matching(
    run: &run::Run,
    rows: &[u32; ROWS_ROOM],
    count: u32,
    points: &[u32],
    point_count: u32,
    positions: &[u32],
) -> bool
    requires { (count ≤ 200) × Pattern (rows_of rows.now count) × (point_count ≡ length (points_of (rows_of rows.now count))) × (take point_count points.now ≡ points_of (rows_of rows.now count)) × (point_count ≤ length positions.now) }
    ensures { result ≡ matching (run_held run.now.words) (rows_of rows.now count) (take point_count positions.now) }
{
    let n = run.lines();
    let introduced = &points[..point_count as usize];
    let placement = &positions[..point_count as usize];
    if !all_lines(placement, n) {
        return false;
    }
    let mut standing = [0u32; POINT_NUMBERS];
    standing[CLOSE] = n + 1;
    put_points(introduced, placement, &mut standing);
    all_met(run, &standing, rows, count)
}
