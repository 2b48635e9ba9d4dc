// The C interface, a static library: each operation of document 01 for a host. Its answer is one number, its findings go to the
// caller's memory, and a refusal writes nowhere. include/satskhubo.h says the same to the host's author.
#![tactic(auto)]

ghost use Rattle.std.specs.Prelude.{◌≡◌, false, ◌-◌, ◌≤◌, length};
ghost use Rattle.columns.specs.Number.{field_at};
ghost use Rattle.columns.specs.Entry.{entry_of, entered};
ghost use Rattle.runlog.specs.Log.{lines_read};
ghost use Rattle.sheet.specs.Reading.{count_of};
ghost use Rattle.antiscenario.specs.Judge.{judge_of};
ghost use Rattle.antiscenario.specs.Write.{write_of, after_write};
ghost use Rattle.search.specs.Searching.{search_of};
ghost use Rattle.verdict.specs.Check.{check_of};
ghost use Rattle.verdict.specs.Numbered.{numbered};
ghost use Rattle.limit.specs.Limit.{limited_of};
ghost use Rattle.ruling.specs.Ruling.{impossible_of};
ghost use Rattle.line.specs.Showing.{part_of, shown_line};
ghost use Rattle.findings.specs.Findings.{by_number, host_number, when_violated, fronted};
ghost use Rattle.bench.specs.Host.{limited_number, unless_refused, field_number, field_value, entry_number};
ghost use Rattle.std.specs.Result.{result_unwrap_or};
ghost use Rattle.refusal.specs.Refusal.{refused_with};
ghost use Rattle.line.specs.Numbered.{number_or_none};

use limit::End;
use refusal::Refusal;
use verdict::Violation;

// Document 02, A10: the check has looked at as many matchings as it may, and there is one more.
const STOPPED: u32 = 102;

// Stores what an operation found in the caller's memory; refused, the memory stays, and the answer is the refusal's number.
fn store<T: Copy>(answer: Result<T, Refusal>, memory: &mut T) -> u32
    ensures answer { result ≡ refused_with answer }
    ensures memory { memory.new ≡ result_unwrap_or answer memory.old }
{
    match answer {
        Ok(finding) => {
            *memory = finding;
            0
        }
        Err(refusal) => refusal.number(),
    }
}

// The check for the bench: the refusal's number, or else 0 for holds and 100 for violated.
#[unsafe(no_mangle)]
pub extern "C" fn check(sheet: &[u8], log: &[u8]) -> u32
    ensures { result ≡ host_number (check_of sheet.now log.now) }
{
    let verdict = match verdict::check(sheet, log) {
        Ok(verdict) => verdict,
        Err(refusal) => return refusal.number(),
    };
    match verdict {
        Some(_) => findings::VIOLATED,
        None => 0,
    }
}

// Read a log: n.
#[unsafe(no_mangle)]
pub extern "C" fn satskhubo_read_log(log: &[u8], lines: &mut u32) -> u32
    ensures answer { result ≡ (lines_read log.now).refusal }
    ensures memory { lines.new ≡ unless_refused (lines_read log.now).refusal (lines_read log.now).lines lines.old }
{
    store(runlog::read_log(log), lines)
}

// Read a sheet: N.
#[unsafe(no_mangle)]
pub extern "C" fn satskhubo_read_sheet(sheet: &[u8], count: &mut u64) -> u32
    ensures answer { result ≡ (count_of sheet.now).refusal }
    ensures memory { count.new ≡ unless_refused (count_of sheet.now).refusal (count_of sheet.now).count count.old }
{
    store(sheet::read_sheet(sheet), count)
}

// Judge a placement of antiscenario `number`: whether it is a matching.
#[unsafe(no_mangle)]
pub extern "C" fn satskhubo_judge(
    sheet: &[u8],
    log: &[u8],
    number: u64,
    placement: antiscenario::Placement,
    met: &mut bool,
) -> u32
    ensures answer { result ≡ (judge_of sheet.now log.now number placement.positions placement.count).refusal }
    ensures memory { met.new ≡ unless_refused (judge_of sheet.now log.now number placement.positions placement.count).refusal (judge_of sheet.now log.now number placement.positions placement.count).met met.old }
{
    store(antiscenario::judge(sheet, log, number, placement), met)
}

// Write antiscenario `number` into the buffer: the text's length.
#[unsafe(no_mangle)]
pub extern "C" fn satskhubo_write(
    sheet: &[u8],
    number: u64,
    buffer: &mut [u8],
    size: &mut usize,
) -> u32
    ensures answer { result ≡ (write_of sheet.now number (length buffer.old)).refusal }
    ensures buffer { buffer.new ≡ after_write sheet.now number buffer.old }
    ensures size { size.new ≡ unless_refused (write_of sheet.now number (length buffer.old)).refusal (write_of sheet.now number (length buffer.old)).length size.old }
{
    let written = antiscenario::write_antiscenario(sheet, number, buffer);
    store(written, size)
}

// Whether antiscenario `number` is impossible (document 02, A6).
#[unsafe(no_mangle)]
pub extern "C" fn satskhubo_impossible(sheet: &[u8], number: u64, impossible: &mut bool) -> u32
    ensures answer { result ≡ (impossible_of sheet.now number).refusal }
    ensures memory { impossible.new ≡ unless_refused (impossible_of sheet.now number).refusal (impossible_of sheet.now number).impossible impossible.old }
{
    store(ruling::is_impossible(sheet, number), impossible)
}

// Search antiscenario `number`: whether it has a matching, the smallest at the front of the places.
#[unsafe(no_mangle)]
pub extern "C" fn satskhubo_search(
    sheet: &[u8],
    log: &[u8],
    number: u64,
    places: &mut [u32],
    found: &mut bool,
) -> u32
    ensures answer { result ≡ (search_of sheet.now log.now number places.old).refusal }
    ensures places { places.new ≡ (search_of sheet.now log.now number places.old).places }
    ensures found { found.new ≡ unless_refused (search_of sheet.now log.now number places.old).refusal (search_of sheet.now log.now number places.old).hit found.old }
{
    let answer = search::search_antiscenario(sheet, log, number, places);
    store(answer, found)
}

// The check with its findings: the smallest placement that extends to no consequent, and the row at fault of each.
#[unsafe(no_mangle)]
pub extern "C" fn satskhubo_check(
    sheet: &[u8],
    log: &[u8],
    positions: &mut [u32; 4],
    points: &mut u32,
    rows: &mut [u32; 6],
    consequents: &mut u32,
) -> u32
    ensures answer { result ≡ host_number (check_of sheet.now log.now) }
    ensures positions { positions.new ≡ when_violated (check_of sheet.now log.now) (fronted (check_of sheet.now log.now).points (check_of sheet.now log.now).positions positions.old) positions.old }
    ensures points { points.new ≡ when_violated (check_of sheet.now log.now) (check_of sheet.now log.now).points points.old }
    ensures rows { rows.new ≡ when_violated (check_of sheet.now log.now) (fronted (check_of sheet.now log.now).consequents (check_of sheet.now log.now).rows rows.old) rows.old }
    ensures consequents { consequents.new ≡ when_violated (check_of sheet.now log.now) (check_of sheet.now log.now).consequents consequents.old }
{
    findings::tell(
        by_number(verdict::check(sheet, log)),
        positions,
        points,
        rows,
        consequents,
    )
}

// A check's answer, its refusal by its number.
fn by_number(checked: Result<Option<Violation>, Refusal>) -> Result<Option<Violation>, u32>
    ensures { by_number result ≡ numbered checked }
{
    match checked {
        Ok(verdict) => Ok(verdict),
        Err(refusal) => Err(refusal.number()),
    }
}

// The check with a limit: its findings as those of the check, the number of matchings looked at, and how many placements come after the last of them.
#[unsafe(no_mangle)]
pub extern "C" fn satskhubo_check_limited(
    sheet: &[u8],
    log: &[u8],
    limit: u64,
    positions: &mut [u32; 4],
    points: &mut u32,
    rows: &mut [u32; 6],
    consequents: &mut u32,
    looked: &mut u64,
    after: &mut u64,
) -> u32
    ensures answer { result ≡ limited_number (limited_of sheet.now log.now limit) }
    ensures positions { positions.new ≡ when_violated (limited_of sheet.now log.now limit).checked (fronted (limited_of sheet.now log.now limit).checked.points (limited_of sheet.now log.now limit).checked.positions positions.old) positions.old }
    ensures points { points.new ≡ when_violated (limited_of sheet.now log.now limit).checked (limited_of sheet.now log.now limit).checked.points points.old }
    ensures rows { rows.new ≡ when_violated (limited_of sheet.now log.now limit).checked (fronted (limited_of sheet.now log.now limit).checked.consequents (limited_of sheet.now log.now limit).checked.rows rows.old) rows.old }
    ensures consequents { consequents.new ≡ when_violated (limited_of sheet.now log.now limit).checked (limited_of sheet.now log.now limit).checked.consequents consequents.old }
    ensures looked { looked.new ≡ unless_refused (limited_of sheet.now log.now limit).checked.refusal (limited_of sheet.now log.now limit).looked looked.old }
    ensures after { after.new ≡ unless_refused (limited_of sheet.now log.now limit).checked.refusal (limited_of sheet.now log.now limit).after after.old }
{
    let limited = match limit::check_limited(sheet, log, limit) {
        Ok(limited) => limited,
        Err(refusal) => return refusal.number(),
    };
    *looked = limited.looked;
    *after = limited.after;
    match limited.end {
        End::Holds => 0,
        End::Stopped => STOPPED,
        End::Violated(violation) => findings::tell(
            Ok(Some(violation)),
            positions,
            points,
            rows,
            consequents,
        ),
    }
}

// A refusal's number, or 0 where nothing is refused.
fn number_of(refusal: Option<Refusal>) -> u32
    ensures { result ≡ number_or_none refusal }
{
    match refusal {
        Some(refusal) => refusal.number(),
        None => 0,
    }
}

// Show the line: the check's refusal, or 0, and the part that it is about. It refuses nothing.
#[unsafe(no_mangle)]
pub extern "C" fn satskhubo_show(
    sheet: &[u8],
    log: &[u8],
    within: &mut bool,
    offset: &mut usize,
    size: &mut usize,
) -> u32
    ensures answer { result ≡ (part_of sheet.now log.now).refusal }
    ensures text { within.new ≡ (part_of sheet.now log.now).log }
    ensures offset { offset.new ≡ (part_of sheet.now log.now).from }
    ensures size { size.new ≡ (part_of sheet.now log.now).to - (part_of sheet.now log.now).from }
{
    let part = line::shown_part(sheet, log);
    *within = part.text.is_log();
    *offset = part.from;
    *size = part.to - part.from;
    number_of(part.refusal)
}

// Show the line itself: the check's refusal, or 0, and the bytes of the line that it is about in front of what was there. No line has
// more than 35. It refuses nothing.
#[unsafe(no_mangle)]
pub extern "C" fn satskhubo_line<'a>(
    sheet: &'a [u8],
    log: &'a [u8],
    line: &mut [u8; 35],
    size: &mut usize,
) -> u32
    ensures answer { result ≡ (part_of sheet.now log.now).refusal }
    ensures line { line.new ≡ fronted (length (shown_line sheet.now log.now)) (shown_line sheet.now log.now) line.old }
    ensures size { size.new ≡ length (shown_line sheet.now log.now) }
{
    let part = line::shown_part(sheet, log);
    let shown = line::show_line(sheet, log);
    findings::copy_line(shown, line);
    *size = shown.len();
    number_of(part.refusal)
}

// The number in the first `width` bytes: 0 and its value, or 1 where they are not well formed.
#[unsafe(no_mangle)]
pub extern "C" fn satskhubo_read_field(text: &[u8], width: usize, value: &mut u32) -> u32
    ensures answer { result ≡ field_number (field_at text.now width) }
    ensures memory { value.new ≡ field_value (field_at text.now width) value.old }
{
    let Some(v) = columns::number(text, width) else {
        return 1;
    };
    *value = v;
    0
}

// The number into the field of `width` columns from index `at` on: 0, or 1 where it does not fit, with every byte as it was.
#[unsafe(no_mangle)]
pub extern "C" fn satskhubo_write_field(
    buffer: &mut [u8],
    at: usize,
    width: usize,
    value: u32,
) -> u32
    ensures answer { result ≡ entry_number (entry_of (length buffer.old) at width value) }
    ensures memory { buffer.new ≡ entered at width value buffer.old }
{
    match columns::write_field(buffer, at, width, value) {
        Ok(()) => 0,
        Err(_) => 1,
    }
}
