// Where the BEFORE rows of a section lead, by a table of sets of points, one word a point; and with it the far end of a missing point.
#![tactic(auto)]

ghost use Rattle.std.specs.Prelude.{◌≡◌, ◌*◌, ◌≤◌, ◌<◌, length};
ghost use Rattle.scenario.specs.Rows.{first_or};
ghost use Rattle.links.specs.Table.{Tells, entered};
ghost use Rattle.order.specs.Leading.{place as place_of, places, link_of, links_in, Led};
ghost use Rattle.order.specs.Ending.{antecedent_points, may_end_in, InOrder, end_in, far_in};

// Places for the points that the rows of one section may use. 20 would do, but a table of 20 words is kept in registers, which every row that is passed over pays for.
const PLACES: usize = links::MOST_PLACES;

// Kinds of row.
const NEXT: u32 = 2;

const LAST: u32 = 3;

const BEFORE: u32 = 6;

// The place of a point: that of the antecedent's 1 to 4 is its number, that of a section's point 10i + t is 10 + t.
fn place(point: u32) -> u32
    ensures { result ≡ place_of point }
{
    if point < 10 {
        return point;
    }
    10 + point % 10
}

// Enters the link of a row BEFORE: from p to q, or the other way. `upward` is a bool, and no closure that picks the two points: the clauses of all
// that hand it down are stated by it.
fn enter_row(table: &mut [u64; PLACES], line: row::Line, upward: bool)
    requires { length table.old ≡ places }
    ensures { Tells places table.new (entered table.old (link_of upward line).from (link_of upward line).to) }
{
    if upward {
        links::enter(table, place(line.p), place(line.q));
        return;
    }
    links::enter(table, place(line.q), place(line.p));
}

// The places that a point leads to by the BEFORE rows of a section, or that lead to it; it is one of them.
fn led_to(rows: &[u32], n: usize, section: u32, upward: bool, point: u32) -> u64
    requires { 6 * n ≤ length rows.now }
    ensures { Led result (links_in rows.now section upward 0 n) (place_of point) }
{
    let mut table = [0u64; PLACES];
    links::begin(&mut table);
    for i in (0..n).rev() {
        if row::section_of(rows, i) == section && row::kind_of(rows, i) == BEFORE {
            enter_row(&mut table, row::line_at(rows, i), upward);
        }
    }
    table[place(point) as usize]
}

// Whether an antecedent point may be the far end: both sets have it, and it is not q.
#[tactic(auto, unfolding(crate::specs::Ending::may_end_in))]
fn may_end(beyond: u64, ordered: u64, q: u32, z: u32) -> bool
    requires { z < places }
    ensures { result ≡ may_end_in beyond ordered q z }
{
    run::member(beyond, z) && z != q && run::member(ordered, z)
}

// "Of several z the lowest number is taken", or else the long end.
fn lowest(beyond: u64, ordered: u64, q: u32, long: u32) -> u32
    ensures { result ≡ first_or long (may_end_in beyond ordered q) antecedent_points }
{
    // A `for`, and no `find`: std has a lemma on the numbers that a range `a..b` yields to one, and none on those of `a..=b`.
    for z in 1..=row::ANTECEDENT_POINTS {
        if may_end(beyond, ordered, q, z) {
            return z;
        }
    }
    long
}

// The places in order with q: those that the antecedent's rows lead to from it, or that lead to it; where q is the edge, every place.
fn in_order(rows: &[u32], n: usize, upward: bool, q: u32, edge: u32) -> u64
    requires { 6 * n ≤ length rows.now }
    ensures { InOrder result rows.now n upward q edge }
{
    if q == edge {
        return run::FULL_SET;
    }
    led_to(rows, n, 0, upward, q)
}

// The far end of a row's missing point, seen upward to the close or downward to the start.
fn end_of(rows: &[u32], n: usize, line: row::Line, upward: bool, edge: u32, long: u32) -> u32
    requires { 6 * n ≤ length rows.now }
    ensures { result ≡ end_in rows.now n line upward edge long }
{
    let beyond = led_to(rows, n, line.section, upward, line.p);
    let ordered = in_order(rows, n, upward, line.q, edge);
    lowest(beyond, ordered, line.q, long)
}

// How far the point of a NEXT or LAST row is missing: to an antecedent point, or up to the close, from the start. No other row asks.
pub fn far_end(rows: &[u32], n: usize, line: row::Line) -> u32
    requires { 6 * n ≤ length rows.now }
    ensures { result ≡ far_in rows.now n line }
{
    match line.kind {
        NEXT => end_of(rows, n, line, true, row::START, row::CLOSE),
        LAST => end_of(rows, n, line, false, row::CLOSE, row::START),
        _ => 0,
    }
}
