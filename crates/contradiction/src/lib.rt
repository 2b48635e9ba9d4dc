// Whether rows in memory contradict each other, so that no run can meet them. Document 02, A6.
#![tactic(auto)]

ghost use Rattle.std.specs.Prelude.{◌≡◌, true, false, map, ◌≤◌, ◌<◌, length};
ghost use Rattle.scenario.specs.Rows.{gather};
ghost use Rattle.scenario.specs.Fields.{decode};
ghost use Rattle.scenario.specs.Reading.{All};
ghost use Rattle.row.specs.Memory.{row_at, rows_of};
ghost use Rattle.links.specs.Table.{Tells, told, leads_on, placed};
ghost use Rattle.impossibility.specs.Impossible.{sets, impossible};
ghost use Rattle.contradiction.specs.Table.{places, place as place_of, Placed, links_of, asking as asking_of, leads_in, Narrowed, Common, torn as torn_of, circling as circling_of, KnownKinds};

// Places for the points of an antiscenario: 0, the antecedent's four, nine a section, 99.
const PLACES: usize = links::MOST_PLACES;

// Kinds of row.
const POINT: u32 = 1;

const NEXT: u32 = 2;

const LAST: u32 = 3;

const BEFORE: u32 = 6;

const APART: u32 = 7;

const SAME: u32 = 8;

const EVENT: u32 = 12;

// The place of a point.
fn place(point: u32) -> u32
    ensures { result ≡ place_of point }
{
    match point {
        0..=9 => point,
        10..=69 => point - point / 10 - 5,
        _ => 59,
    }
}

// Whether a row asks a set of its p.
fn asking(kind: u32) -> bool
    ensures { result ≡ asking_of kind }
{
    matches!(kind, POINT | NEXT | LAST | EVENT)
}

// Enters the links of a row between points that are one: SAME, which goes both ways.
fn enter_joins(table: &mut [u64; PLACES], row: pattern::Row)
    requires { length table.old ≡ places }
    ensures { Tells places table.new (leads_on (told table.old) (map (placed place_of) (links_of true (decode row.kind row.p row.q row.a row.b row.set)))) }
{
    if row.kind == SAME {
        let p = place(row.p);
        let q = place(row.q);
        links::enter(table, q, p);
        links::enter(table, p, q);
    }
}

// Enters the link of a row from a lower point to a higher one: BEFORE and LAST from p to q, NEXT from q to p.
fn enter_lowers(table: &mut [u64; PLACES], row: pattern::Row)
    requires { length table.old ≡ places }
    ensures { Tells places table.new (leads_on (told table.old) (map (placed place_of) (links_of false (decode row.kind row.p row.q row.a row.b row.set)))) }
{
    let p = place(row.p);
    let q = place(row.q);
    match row.kind {
        LAST | BEFORE => links::enter(table, p, q),
        NEXT => links::enter(table, q, p),
        _ => {}
    }
}

// Whether one point leads to another.
fn leads(table: &[u64; PLACES], p: u32, q: u32) -> bool
    ensures { result ≡ leads_in table.now p q }
{
    run::member(table[place(p) as usize], place(q))
}

// The set, or what it has in common with the set that a row asks of a point that p leads to.
fn shared(table: &[u64; PLACES], row: pattern::Row, p: u32, set: u64) -> u64
    ensures { Narrowed table.now (decode row.kind row.p row.q row.a row.b row.set) p set result }
{
    if asking(row.kind) && leads(table, p, row.p) {
        set & row.set
    } else {
        set
    }
}

// The events that are in every set for the points that p leads to.
fn common(table: &[u64; PLACES], rows: &[u32; pattern::ROWS_ROOM], n: u32, p: u32) -> u64
    requires { n ≤ 200 }
    ensures { Common table.now (sets (rows_of rows.now n)) p result }
{
    let mut set = run::FULL_SET;
    for i in (0..n).rev() {
        set = shared(table, pattern::row_at(rows, i), p, set);
    }
    set
}

// Whether a row tells, by where its points are joined, that no run can meet the rows: it has its points apart, and they are one, or the sets for its point have no
// event in common.
fn torn(table: &[u64; PLACES], rows: &[u32; pattern::ROWS_ROOM], n: u32, j: u32) -> bool
    requires { (n ≤ 200) × (j < n) × KnownKinds rows.now n }
    ensures { result ≡ torn_of table.now (rows_of rows.now n) (row_at rows.now j) }
{
    let line = row::line_at(rows, j as usize);
    if line.kind == APART {
        return leads(table, line.p, line.q);
    }
    asking(line.kind) && common(table, rows, n, line.p) == 0
}

// Whether a row tells, by where lower points lead, that no run can meet the rows: from its higher point back to its lower one.
fn circling(table: &[u64; PLACES], row: pattern::Row) -> bool
    ensures { result ≡ circling_of table.now (decode row.kind row.p row.q row.a row.b row.set) }
{
    match row.kind {
        LAST | BEFORE => leads(table, row.q, row.p),
        NEXT => leads(table, row.p, row.q),
        _ => false,
    }
}

// Whether rows in memory contradict each other, by the three rules: by where points are joined, then by where lower ones lead. The last row is entered first.
pub fn contradict(rows: &[u32; pattern::ROWS_ROOM], n: u32) -> bool
    requires { (n ≤ 200) × KnownKinds rows.now n × All Placed (rows_of rows.now n) }
    ensures { result ≡ impossible (rows_of rows.now n) }
{
    let mut table = [0u64; PLACES];
    links::begin(&mut table);
    for i in (0..n).rev() {
        enter_joins(&mut table, pattern::row_at(rows, i));
    }
    if (0..n).any(|j| torn(&table, rows, n, j)) {
        return true;
    }
    for i in (0..n).rev() {
        enter_lowers(&mut table, pattern::row_at(rows, i));
    }
    (0..n).any(|j| circling(&table, pattern::row_at(rows, j)))
}
