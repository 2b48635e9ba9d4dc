// What the program prints of a check.
#![tactic(auto)]

ghost use Rattle.std.specs.Prelude.{◌≡◌, ◌+◌, ◌≤◌, length};
ghost use Rattle.columns.specs.Ink.{inked};
ghost use Rattle.report.specs.Printing.{InColumns, line_text, report_of};

// What the program prints: the text, at the front of zeros, and its length, as there is no heap.
#[derive(Drop)]
pub struct Report {
    pub text: [u8; 64],
    pub length: usize,
}

// Writes values in fields of one width, which each of them fits, from index at on, and the line's end; answers where the line ends.
fn write_line(out: &mut [u8], at: usize, width: usize, values: &[u32]) -> usize
    requires { InColumns width values.now × (at + length (line_text width values.now) ≤ 64) × (length out.old ≡ 64) }
    ensures end { result ≡ at + length (line_text width values.now) }
    ensures text { out.new ≡ inked at (line_text width values.now) out.old }
{
    let mut to = at;
    for value in values {
        columns::write_number(out, to, width, *value);
        to += width;
    }
    out[to] = 10;
    to + 1
}

// The text that the program prints of a sheet and a log.
pub fn report_check(sheet: &[u8], log: &[u8]) -> Report
    ensures text { result ≡ report_of sheet.now log.now }
    ensures fits { result.length ≤ 64 }
{
    let mut text = [0u8; 64];
    let verdict = match verdict::check(sheet, log) {
        Ok(verdict) => verdict,
        Err(refusal) => {
            let length = write_line(&mut text, 0, 3, &[refusal.number(), 0]);
            return Report { text, length };
        }
    };
    let Some(violation) = verdict else {
        let length = write_line(&mut text, 0, 3, &[0, 0]);
        return Report { text, length };
    };
    let end = write_line(&mut text, 0, 3, &[0, 1]);
    let points = violation.points as usize;
    let next = write_line(&mut text, end, 5, &violation.positions[0..points]);
    let consequents = violation.consequents as usize;
    let length = write_line(&mut text, next, 4, &violation.rows[0..consequents]);
    Report { text, length }
}
