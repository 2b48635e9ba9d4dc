// An antiscenario by its number: its rows in memory, its text, and whether a placement is a matching of it.
#![tactic(auto)]

ghost use Rattle.std.specs.Prelude.{◌≡◌, List, ℕ, ◌≤◌, length, get_or, take, IfOk};
ghost use Rattle.sheet.specs.Held.{sheet_at, SheetLoaded};
ghost use Rattle.antiscenario.specs.Numbers.{number_refusal, text_refusal};
ghost use Rattle.antiscenario.specs.Held.{AntiscenarioHeld, TextHeld, Ready};
ghost use Rattle.antiscenario.specs.Write.{write_of, after_write};
ghost use Rattle.antiscenario.specs.Judge.{refusal_of, judge_of};
ghost use Rattle.antiscenario.specs.Numbered.{numbered_write, numbered_judge};
ghost use Rattle.refusal.specs.Refusal.{refused_with};
ghost use Rattle.sheet.specs.Reading.{accepted};

use refusal::Refusal;

// Stores antiscenario `number` of a sheet in memory, of which reading gave the extent: its rows, six numbers to a row, and how many they are; or "31 m not in 1 to N".
pub fn load(
    rows: &[u32],
    extent: sheet::Extent,
    number: u64,
    out: &mut [u32],
) -> Result<u32, Refusal>
    requires { SheetLoaded rows.now (accepted extent.k extent.rows extent.count) × (1200 ≤ length out.old) }
    ensures refusal { refused_with result ≡ number_refusal extent.count number }
    ensures memory { IfOk result (λ count. AntiscenarioHeld (sheet_at rows.now extent.rows extent.k) number out.new count) }
{
    if !(1..=extent.count).contains(&number) {
        return Err(Refusal::NoSuchNumber);
    }
    let n = denial::build(rows, extent.rows, extent.k, extent.count, number - 1, out);
    Ok(n as u32)
}

// An antiscenario that was stored: the number of consequents of its sheet, and how many rows it has.
#[derive(Clone, Copy)]
pub struct TextRows {
    pub k: u32,
    pub rows: u32,
}

// Reads a sheet, and stores antiscenario `number`, six numbers to a row: the sheet's refusals, 31.
pub fn load_text(sheet: &[u8], number: u64, out: &mut [u32]) -> Result<TextRows, Refusal>
    requires { 1200 ≤ length out.old }
    ensures refusal { refused_with result ≡ text_refusal sheet.now number }
    ensures memory { IfOk result (λ stored. TextHeld sheet.now number out.new stored.k stored.rows) }
{
    let mut rows = [0u32; sheet::SHEET_ROOM];
    let extent = sheet::load_sheet(sheet, &mut rows)?;
    let count = load(&rows, extent, number, out)?;
    Ok(TextRows {
        k: extent.k,
        rows: count,
    })
}

// "Write antiscenario m into a lent buffer", and the text's length.
pub fn write_antiscenario(sheet: &[u8], number: u64, buf: &mut [u8]) -> Result<usize, Refusal>
    ensures answer { numbered_write result ≡ write_of sheet.now number (length buf.old) }
    ensures memory { buf.new ≡ after_write sheet.now number buf.old }
{
    let mut out = [0u32; pattern::ROWS_ROOM];
    let stored = load_text(sheet, number, &mut out)?;
    let n = stored.rows as usize;
    let size = 7 + 35 * n;
    if buf.len() < size {
        return Err(Refusal::BufferTooShort);
    }
    text::write_text(buf, stored.k, &out, n);
    Ok(size)
}

// Reads a sheet and a log, and stores antiscenario `number`, six numbers to a row, and the log in memory, in which there are zeros; gives how many rows it has.
pub fn load_antiscenario(
    sheet: &[u8],
    log: &[u8],
    number: u64,
    out: &mut [u32],
    run: &mut run::Run,
) -> Result<u32, Refusal>
    requires { (1200 ≤ length out.old) × ((i : ℕ) → get_or run.old.words i 0 ≡ 0) }
    ensures refusal { refused_with result ≡ refusal_of sheet.now log.now number }
    ensures memory { IfOk result (λ count. Ready sheet.now log.now number out.new count run.new.words) }
{
    let mut rows = [0u32; sheet::SHEET_ROOM];
    let extent = sheet::load_sheet(sheet, &mut rows)?;
    runlog::load_log(log, run)?;
    load(&rows, extent, number, out)
}

// A placement handed over whole, as a host lays it out in C: a position for each point, in order of introduction, and their number. Entries past it play no part.
#[repr(C)]
#[derive(Drop)]
pub struct Placement {
    pub positions: [u32; pattern::MOST_POINTS],
    pub count: usize,
}

// "Judge a placement of antiscenario m": whether it is a matching.
pub fn judge(sheet: &[u8], log: &[u8], number: u64, placement: Placement) -> Result<bool, Refusal>
    ensures answer { numbered_judge result ≡ judge_of sheet.now log.now number placement.positions placement.count }
    ensures past { (table : List ℕ) → take placement.count table ≡ take placement.count placement.positions → numbered_judge result ≡ judge_of sheet.now log.now number table placement.count }
{
    let mut rows = [0u32; pattern::ROWS_ROOM];
    let mut run = run::Run::new();
    let count = load_antiscenario(sheet, log, number, &mut rows, &mut run)?;
    let mut points = [0u32; pattern::MOST_POINTS];
    let point_count = pattern::gather(&rows, count, &mut points);
    if placement.count != point_count as usize {
        return Err(Refusal::WrongNumberOfPositions);
    }
    Ok(pattern::is_matching(
        &run,
        &rows,
        count,
        &points,
        point_count,
        &placement.positions,
    ))
}
