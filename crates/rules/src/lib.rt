// The rules of one row, in the order of document 01: refusals 5 to 10, and where a reading stands before and after it.
#![tactic(auto)]

ghost use Rattle.std.specs.Prelude.{◌≡◌, ◌≤◌};
ghost use Rattle.rules.specs.Numbers.{most_consequents, most_rows};
ghost use Rattle.rules.specs.Rules.{enter, advance, ordinary, known, kind_fits, p_fits, origin_fits, q_fits, rest_fits, room_fits, refusal_within, refusal, is_due, set_only, both_zero};
ghost use Rattle.rules.specs.Numbered.{numbered};

use refusal::SheetRefusal;

const MOST_ANTECEDENT_ROWS: u32 = 32;

const MOST_CONSEQUENT_ROWS: u32 = 24;

// Where a reading stands: the preceding row's section, how many rows it has so far, how many points the antecedent has introduced, and how many that
// section has if it is a consequent.
#[derive(Clone, Copy)]
pub struct Stand {
    pub section: u32,
    pub rows: u32,
    pub antecedent: u32,
    pub own: u32,
}

// "All others are ordinary and known once introduced": those of the antecedent and of the row's own section s.
fn ordinary_point(s: u32, antecedent: u32, own: u32, m: u32) -> bool
    requires { (s ≤ most_consequents) × (own ≤ most_rows) }
    ensures { result ≡ ordinary s antecedent own m }
{
    (0 < m && m <= antecedent) || (10 * s < m && m <= 10 * s + own)
}

// "Points: 0 is the start and 99 the close, always known."
fn known_point(s: u32, antecedent: u32, own: u32, m: u32) -> bool
    requires { (s ≤ most_consequents) × (own ≤ most_rows) }
    ensures { result ≡ known s antecedent own m }
{
    m == row::START || m == row::CLOSE || ordinary_point(s, antecedent, own, m)
}

// "6 kind unknown or not for this section": POINT in the antecedent only, 2 to 5 in consequents only.
fn kind_fits(s: u32, kind: u32) -> bool
    ensures { result ≡ kind_fits s kind }
{
    match kind {
        1 => s == 0,
        2..=5 => 0 < s,
        6..=12 => true,
        _ => false,
    }
}

// The number due is one more than those introduced; "none is due past a section's last".
fn due(first: u32, last: u32, count: u32, p: u32) -> bool
    requires { (first ≤ 60) × (count ≤ most_rows) }
    ensures { result ≡ is_due first last count p }
{
    count < last && p == first + count + 1
}

// "7 p not the number due (kinds 1 to 5) or not a permitted known point".
fn p_fits(kind: u32, s: u32, antecedent: u32, own: u32, p: u32) -> bool
    requires { (1 ≤ kind) × (kind ≤ 12) × (s ≤ most_consequents) × (antecedent ≤ most_rows) × (own ≤ most_rows) }
    ensures { result ≡ p_fits kind s antecedent own p }
{
    match kind {
        1 => due(0, row::ANTECEDENT_POINTS, antecedent, p),
        2..=5 => due(10 * s, row::CONSEQUENT_POINTS, own, p),
        6..=8 => ordinary_point(s, antecedent, own, p),
        9..=11 => known_point(s, antecedent, own, p),
        12 => ordinary_point(s, antecedent, own, p),
        _ => false,
    }
}

// The points that p's position comes from: q of NEXT is not 99, q of LAST is not 0, q and a of EARLIER and LATER are ordinary and different.
fn origin_fits(kind: u32, s: u32, antecedent: u32, own: u32, q: u32, a: u32) -> bool
    requires { (2 ≤ kind) × (kind ≤ 5) × (s ≤ most_consequents) × (own ≤ most_rows) }
    ensures { result ≡ origin_fits kind s antecedent own q a }
{
    match kind {
        2 => q != row::CLOSE && known_point(s, antecedent, own, q),
        3 => q != row::START && known_point(s, antecedent, own, q),
        4 | 5 => q != a
            && ordinary_point(s, antecedent, own, q)
            && ordinary_point(s, antecedent, own, a),
        _ => false,
    }
}

// "8 q, or a in kinds 4 and 5, not a permitted known point or not different". Kinds 1 and 12 have no q.
fn q_fits(kind: u32, s: u32, antecedent: u32, own: u32, p: u32, q: u32, a: u32) -> bool
    requires { (s ≤ most_consequents) × (own ≤ most_rows) }
    ensures { result ≡ q_fits kind s antecedent own p q a }
{
    match kind {
        2..=5 => origin_fits(kind, s, antecedent, own, q, a),
        6..=8 => q != p && ordinary_point(s, antecedent, own, q),
        9..=11 => q != p && known_point(s, antecedent, own, q),
        _ => true,
    }
}

// Two fields that are not used, or the halves of an empty set.
fn both_zero(a: u32, b: u32) -> bool
    ensures { result ≡ both_zero a b }
{
    a == 0 && b == 0
}

// A set that is not empty, its halves in a and b, beside q that is not used.
fn set_only(q: u32, a: u32, b: u32) -> bool
    ensures { result ≡ set_only q a b }
{
    q == 0 && !both_zero(a, b)
}

// "9 an unused field not 0, an empty set, or a above b in kinds 10 and 11".
fn rest_fits(kind: u32, q: u32, a: u32, b: u32) -> bool
    requires { (1 ≤ kind) × (kind ≤ 12) }
    ensures { result ≡ rest_fits kind q a b }
{
    match kind {
        1 => set_only(q, a, b),
        2 | 3 => set_only(0, a, b),
        4 | 5 => b == 0,
        6..=8 => both_zero(a, b),
        9 => set_only(0, a, b),
        10 | 11 => a <= b,
        12 => q == 0,
        _ => false,
    }
}

// "10 section too long": `rows` of it stand before this one.
fn room_fits(s: u32, rows: u32) -> bool
    ensures { result ≡ room_fits s rows }
{
    rows < if s == 0 {
        MOST_ANTECEDENT_ROWS
    } else {
        MOST_CONSEQUENT_ROWS
    }
}

// Whether a row is permitted, as it finds its section: the refusals from 6 on.
fn permit_within(here: Stand, line: row::Line) -> Result<(), SheetRefusal>
    requires { (line.section ≤ most_consequents) × (here.antecedent ≤ most_rows) × (here.own ≤ most_rows) }
    ensures { numbered result ≡ refusal_within here line }
{
    if !kind_fits(line.section, line.kind) {
        return Err(SheetRefusal::WrongKind);
    }
    if !p_fits(line.kind, line.section, here.antecedent, here.own, line.p) {
        return Err(SheetRefusal::WrongP);
    }
    if !q_fits(
        line.kind,
        line.section,
        here.antecedent,
        here.own,
        line.p,
        line.q,
        line.a,
    ) {
        return Err(SheetRefusal::WrongQ);
    }
    if !rest_fits(line.kind, line.q, line.a, line.b) {
        return Err(SheetRefusal::WrongField);
    }
    if !room_fits(line.section, here.rows) {
        return Err(SheetRefusal::SectionTooLong);
    }
    Ok(())
}

// Whether a row is permitted: "5 section above k or below the preceding row's", and then 6 to 10.
pub fn permit(k: u32, at: Stand, line: row::Line) -> Result<(), SheetRefusal>
    requires { (k ≤ most_consequents) × (at.antecedent ≤ most_rows) × (at.own ≤ most_rows) }
    ensures { numbered result ≡ refusal k at line }
{
    if line.section < at.section || k < line.section {
        return Err(SheetRefusal::WrongSection);
    }
    permit_within(enter_section(at, line.section), line)
}

// Where the reading stands as a row of section s finds it: a new section has no rows and no points.
pub fn enter_section(at: Stand, s: u32) -> Stand
    ensures { result ≡ enter at s }
{
    if at.section == s {
        return at;
    }
    Stand {
        section: s,
        rows: 0,
        own: 0,
        ..at
    }
}

// Where it stands after a row of this kind; kinds 1 to 5 introduce a point.
pub fn after_row(at: Stand, kind: u32) -> Stand
    requires { (at.rows ≤ most_rows) × (at.antecedent ≤ most_rows) × (at.own ≤ most_rows) }
    ensures { result ≡ advance at kind }
{
    let rows = at.rows + 1;
    match kind {
        1 => Stand {
            rows,
            antecedent: at.antecedent + 1,
            ..at
        },
        2..=5 => Stand {
            rows,
            own: at.own + 1,
            ..at
        },
        _ => Stand { rows, ..at },
    }
}
