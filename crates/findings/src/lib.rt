// A check's answer for a host: its number, and its findings in the caller's memory.
#![tactic(auto)]

ghost use Rattle.std.specs.Prelude.{◌≡◌, ◌≤◌, length};
ghost use Rattle.findings.specs.Findings.{by_number, host_number, when_violated, fronted};

use verdict::Violation;

pub const VIOLATED: u32 = 100;

// All bytes of a line to the front of other bytes. A `for` that copies each: by `copy_from_slice` the archive would need `memmove` from outside.
pub fn copy_line(from: &[u8], to: &mut [u8])
    requires { length from.now ≤ length to.old }
    ensures { to.new ≡ fronted (length from.now) from.now to.old }
{
    for (i, byte) in from.iter().enumerate() {
        to[i] = *byte;
    }
}

// The number of a check's answer, in which a refusal is its number as hosts know it; its findings, where it is violated, go to the caller's memory.
pub fn tell(
    checked: Result<Option<Violation>, u32>,
    positions: &mut [u32; 4],
    points: &mut u32,
    rows: &mut [u32; 6],
    consequents: &mut u32,
) -> u32
    requires { ((by_number checked).points ≤ 4) × ((by_number checked).consequents ≤ 6) }
    ensures answer { result ≡ host_number (by_number checked) }
    ensures positions { positions.new ≡ when_violated (by_number checked) (fronted (by_number checked).points (by_number checked).positions positions.old) positions.old }
    ensures points { points.new ≡ when_violated (by_number checked) (by_number checked).points points.old }
    ensures rows { rows.new ≡ when_violated (by_number checked) (fronted (by_number checked).consequents (by_number checked).rows rows.old) rows.old }
    ensures consequents { consequents.new ≡ when_violated (by_number checked) (by_number checked).consequents consequents.old }
{
    let verdict = match checked {
        Ok(verdict) => verdict,
        Err(number) => return number,
    };
    let Some(violation) = verdict else {
        return 0;
    };
    let placed = violation.points as usize;
    positions[..placed].copy_from_slice(&violation.positions[..placed]);
    let faulty = violation.consequents as usize;
    rows[..faulty].copy_from_slice(&violation.rows[..faulty]);
    *points = violation.points;
    *consequents = violation.consequents;
    VIOLATED
}
