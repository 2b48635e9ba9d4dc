// Reading a sheet, in the order of document 01: first line, rows, N. The public operation is `read_sheet`; `load_sheet` fills lent memory for the others.
#![tactic(auto)]

ghost use Rattle.std.specs.Prelude.{◌≡◌, ◌+◌, ◌*◌, ◌≤◌, ◌<◌, length, replicate, OnOk, IfErr};
ghost use Rattle.rules.specs.Numbers.{most_consequents, most_rows};
ghost use Rattle.sheet.specs.Numbers.{sheet_room};
ghost use Rattle.rules.specs.Rules.{refusal, start};
ghost use Rattle.refusal.specs.declared.Refusal.TheVariants.{Sheet};
ghost use Rattle.refusal.specs.Refusal.{sheet_number};
ghost use Rattle.sheet.specs.Reading.{head_of, rows_from, taken, answer, count_of};
ghost use Rattle.sheet.specs.Numbered.{numbered_head, numbered, numbered_count};
ghost use Rattle.row.specs.Memory.{lay, lines_in, line_in};
ghost use Rattle.sheet.specs.Count.{edge, weight_free, weight, weigh_line, Weighed, product};

use refusal::{Refusal, SheetRefusal};

// Document 01, "Sheet": at most 6 consequents, 176 rows, 32 of them in the antecedent and 24 in a consequent. So N is at most 48^6.
const MOST_CONSEQUENTS: u32 = 6;

const MOST_ROWS: u32 = 176;

// Room for 176 rows, six numbers to a row.
pub const SHEET_ROOM: usize = 1056;

// The antecedent and the consequents.
pub const SECTIONS: usize = 7;

// What the first line gives: the consequents and the row count.
#[derive(Clone, Copy)]
pub struct Head {
    pub k: u32,
    pub rows: usize,
}

// How large a sheet is: its consequents, its rows, and N.
#[derive(Clone, Copy)]
pub struct Extent {
    pub k: u32,
    pub rows: usize,
    pub count: u64,
}

// Why a sheet is refused, and the row that it is about (0: the first line).
#[derive(Clone, Copy)]
pub struct Refused {
    pub refusal: SheetRefusal,
    pub row: u32,
}

// The first line is refused.
impl From<SheetRefusal> for Refused {
    ghost from_gives = { λ refusal r. r ≡ record { refusal = refusal; row = 0 } };

    fn from(refusal: SheetRefusal) -> Refused {
        Refused { refusal, row: 0 }
    }
}

impl From<Refused> for Refusal {
    ghost from_gives = { λ refused r. r ≡ Sheet refused.refusal };

    fn from(refused: Refused) -> Refusal {
        Refusal::Sheet(refused.refusal)
    }
}

// "1 first line short or malformed; 2 k over 6 or row count over 176; 3 length is not 7 + 35 × rows".
fn first_line(s: &[u8]) -> Result<Head, SheetRefusal>
    ensures { numbered_head result ≡ head_of s.now }
{
    if s.len() < 7 {
        return Err(SheetRefusal::HeadMalformed);
    }
    let Some(k) = columns::number(s, 3) else {
        return Err(SheetRefusal::HeadMalformed);
    };
    let Some(rows) = columns::number(&s[3..], 3) else {
        return Err(SheetRefusal::HeadMalformed);
    };
    if s[6] != 10 {
        return Err(SheetRefusal::HeadMalformed);
    }
    if MOST_CONSEQUENTS < k {
        return Err(SheetRefusal::OverLimits);
    }
    if MOST_ROWS < rows {
        return Err(SheetRefusal::OverLimits);
    }
    let n = rows as usize;
    if s.len() != 7 + 35 * n {
        return Err(SheetRefusal::WrongLength);
    }
    Ok(Head { k, rows: n })
}

// "then row by row": n rows into the memory, until one is refused.
fn read_rows(s: &[u8], k: u32, n: usize, rows: &mut [u32]) -> Result<(), Refused>
    requires { (k ≤ most_consequents) × (n ≤ most_rows) × (7 + 35 * n ≤ length s.now) × (sheet_room ≤ length rows.old) }
    ensures ok { OnOk result ((rows_from k s.now 0 n start).number ≡ 0) }
    ensures err { IfErr result (λ r. (sheet_number r.refusal ≡ (rows_from k s.now 0 n start).number) × (r.row ≡ (rows_from k s.now 0 n start).row)) }
    ensures memory { rows.new ≡ lay 0 (rows_from k s.now 0 n start).lines rows.old }
{
    let mut at = rules::Stand {
        section: 0,
        rows: 0,
        antecedent: 0,
        own: 0,
    };
    let lines = &s[7..7 + 35 * n];
    for (i, bytes) in lines.chunks_exact(35).enumerate() {
        let number = i as u32 + 1;
        let Some(line) = row::parse(bytes) else {
            return Err(Refused {
                refusal: SheetRefusal::RowMalformed,
                row: number,
            });
        };
        if let Err(refusal) = rules::permit(k, at, line) {
            return Err(Refused {
                refusal,
                row: number,
            });
        }
        row::put_line(rows, i, line);
        at = rules::after_row(rules::enter_section(at, line.section), line.kind);
    }
    Ok(())
}

// Start or close.
pub fn is_edge(p: u32) -> bool
    ensures { result ≡ edge p }
{
    p == row::START || p == row::CLOSE
}

// How many denials FREE p q has: two, or one "if p or q is 0 or 99". Accepted pairs are of two different points.
fn weigh_free(p: u32, q: u32) -> u64
    ensures { (result ≡ weight_free p q) × (result ≤ 2) }
{
    if is_edge(p) {
        u64::from(p != q)
    } else if is_edge(q) {
        1
    } else {
        2
    }
}

// How many denials a consequent's row has: EARLIER and LATER none, BEFORE two.
fn weigh(kind: u32, p: u32, q: u32) -> u64
    ensures { (result ≡ weight kind p q) × (result ≤ 2) }
{
    match kind {
        1 => 0,
        4 | 5 => 0,
        6 => 2,
        9 => weigh_free(p, q),
        _ => 1,
    }
}

// How many denials the row with number i, from 0, has in a section.
pub fn weigh_at(rows: &[u32], i: usize, section: u32) -> u64
    requires { (i < most_rows) × (sheet_room ≤ length rows.now) }
    ensures { (result ≡ weigh_line section (line_in rows.now i)) × (result ≤ 2) }
{
    if row::section_of(rows, i) != section {
        return 0;
    }
    weigh(
        row::kind_of(rows, i),
        row::p_of(rows, i),
        row::q_of(rows, i),
    )
}

// How many denials each section has, by its number, in one walk over the rows.
pub fn weigh_sections(rows: &[u32], n: usize, denials: &mut [u64; SECTIONS])
    requires { (n ≤ most_rows) × (sheet_room ≤ length rows.now) × (denials.old ≡ replicate 7 0) }
    ensures { Weighed denials.new (lines_in rows.now 0 n) }
{
    for i in 0..n {
        let section = row::section_of(rows, i) as usize;
        if section < SECTIONS {
            denials[section] += weigh(
                row::kind_of(rows, i),
                row::p_of(rows, i),
                row::q_of(rows, i),
            );
        }
    }
}

// "Their count N is the product of the denials per consequent; with k = 0, N is 1".
fn product_of(rows: &[u32], n: usize, k: u32) -> u64
    requires { (n ≤ most_rows) × (k ≤ most_consequents) × (sheet_room ≤ length rows.now) }
    ensures { result ≡ product 1 k (lines_in rows.now 0 n) }
{
    let mut denials = [0u64; SECTIONS];
    weigh_sections(rows, n, &mut denials);
    // A `for`: of `product()` it stayed open that every part of the product fits 64 bits.
    let mut total: u64 = 1;
    for factor in &denials[1..=k as usize] {
        total *= *factor;
    }
    total
}

// Reads a sheet: its rows into the memory, six numbers to a row, and N; or the refusal with the row that it is about, and the rows before that one.
pub fn load_sheet(s: &[u8], rows: &mut [u32]) -> Result<Extent, Refused>
    requires { sheet_room ≤ length rows.old }
    ensures answers { numbered result ≡ answer s.now }
    ensures memory { rows.new ≡ lay 0 (taken s.now).lines rows.old }
{
    let head = first_line(s)?;
    read_rows(s, head.k, head.rows, rows)?;
    Ok(Extent {
        k: head.k,
        rows: head.rows,
        count: product_of(rows, head.rows, head.k),
    })
}

// "Read a sheet (gives N)": the refusal, or N. The memory is its own, so that it writes nowhere.
pub fn read_sheet(sheet: &[u8]) -> Result<u64, Refusal>
    ensures { numbered_count result ≡ count_of sheet.now }
{
    let mut rows = [0u32; SHEET_ROOM];
    let extent = load_sheet(sheet, &mut rows)?;
    Ok(extent.count)
}
