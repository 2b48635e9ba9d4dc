// The text of rows in memory, written into a buffer: the first line, then a line for each row.
#![tactic(auto)]

ghost use Rattle.std.specs.Prelude.{◌≡◌, ◌++◌, ◌+◌, ◌*◌, ◌≤◌, ◌<◌, length, drop};
ghost use Rattle.columns.specs.Ink.{inked};
ghost use Rattle.scenario.specs.Reading.{All};
ghost use Rattle.row.specs.Memory.{lines_in};
ghost use Rattle.sheet.specs.Text.{Fits, row_text, rows_text, head_text, sheet_text};

// Writes a row's line from index at on. Its numbers fit their columns.
fn write_row(buf: &mut [u8], at: usize, line: row::Line)
    requires { (at + 35 ≤ length buf.old) × (at ≤ 100000) × Fits line }
    ensures { buf.new ≡ inked at (row_text line) buf.old }
{
    columns::write_number(buf, at, 3, line.section);
    columns::write_number(buf, at + 3, 3, line.kind);
    columns::write_number(buf, at + 6, 3, line.p);
    columns::write_number(buf, at + 9, 3, line.q);
    columns::write_number(buf, at + 12, 11, line.a);
    columns::write_number(buf, at + 23, 11, line.b);
    buf[at + 34] = 10;
}

// Writes the first line. Both numbers fit their columns.
fn write_head(buf: &mut [u8], k: u32, n: u32)
    requires { (7 ≤ length buf.old) × (k < 1000) × (n < 1000) }
    ensures { buf.new ≡ inked 0 (head_text k n) buf.old }
{
    columns::write_number(buf, 0, 3, k);
    columns::write_number(buf, 3, 3, n);
    buf[6] = 10;
}

// Writes the lines of n rows in memory, whose numbers fit, from index 7 on.
fn write_rows(buf: &mut [u8], rows: &[u32], n: usize)
    requires { (7 + 35 * n ≤ length buf.old) × (n ≤ 200) × (6 * n ≤ length rows.now) × All Fits (lines_in rows.now 0 n) }
    ensures { buf.new ≡ inked 7 (rows_text (lines_in rows.now 0 n)) buf.old }
{
    for i in 0..n {
        write_row(buf, 7 + 35 * i, row::line_at(rows, i));
    }
}

// Writes the text of n rows in memory, whose numbers fit, and so does k.
pub fn write_text(buf: &mut [u8], k: u32, rows: &[u32], n: usize)
    requires { (7 + 35 * n ≤ length buf.old) × (n ≤ 200) × (6 * n ≤ length rows.now) × (k < 1000) × All Fits (lines_in rows.now 0 n) }
    ensures { buf.new ≡ sheet_text k (lines_in rows.now 0 n) ++ drop (7 + 35 * n) buf.old }
{
    write_head(buf, k, n as u32);
    write_rows(buf, rows, n);
}
