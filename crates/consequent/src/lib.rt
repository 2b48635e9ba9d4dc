// The walk over a consequent: a row further, and the first row that cannot be met.
#![tactic(auto)]

ghost use Rattle.std.specs.Prelude.{◌≡◌, ℕ, ◌≤◌, ◌<◌, length, replicate, None, is_some as is_there};
ghost use Rattle.scenario.specs.Reading.{point_numbers};
ghost use Rattle.run.specs.Held.{run_held};
ghost use Rattle.row.specs.Memory.{section_at, row_at, tags_of};
ghost use Rattle.consequent.specs.Walk.{moved_to, advance_in, is_some, or_keep, faults_in, consequent_of, Kept};
ghost use Rattle.sheet.specs.Held.{SheetHeld};

// Puts a position that was found as that of point p.
fn put(positions: &mut [u32], p: u32, x: Option<u32>) -> bool
    ensures found { result ≡ is_there x }
    ensures placed { positions.new ≡ moved_to positions.old p x }
{
    let Some(x) = x else {
        return false;
    };
    row::store(positions, p as usize, x);
    true
}

// Row j, and one row further: its point is placed, or its test is passed; or it cannot be met, and the positions stay.
pub fn advance(
    run: &run::Run,
    positions: &mut [u32; pattern::POINT_NUMBERS],
    rows: &[u32; pattern::ROWS_ROOM],
    j: u32,
) -> bool
    requires { j < 200 }
    ensures met { result ≡ is_some (advance_in (run_held run.now.words) positions.old (row_at rows.now j)) }
    ensures placed { positions.new ≡ or_keep positions.old (advance_in (run_held run.now.words) positions.old (row_at rows.now j)) }
{
    let row = pattern::row_at(rows, j);
    let y = pattern::at(positions, row.q);
    match row.kind {
        1 => false,
        2 => put(positions, row.p, maps::first_after(run, row.set, y)),
        3 => put(positions, row.p, maps::last_before(run, row.set, y)),
        4 => {
            let x = y.min(pattern::at(positions, row.a));
            row::store(positions, row.p as usize, x);
            true
        }
        5 => {
            let x = y.max(pattern::at(positions, row.a));
            row::store(positions, row.p as usize, x);
            true
        }
        _ => pattern::meets(run, positions, rows, j),
    }
}

// For each consequent the first row that cannot be met, over these positions, to `faults`, in which there are zeros, and none; or the first consequent, from 1, all of whose rows can be
// met. The rows place their consequent's points among the positions: no other consequent uses them. The consequents' rows are those from `first` on, one consequent's after another's, so
// that each is looked for behind where the one before it was left.
pub fn at_fault(
    run: &run::Run,
    rows: &[u32; pattern::ROWS_ROOM],
    first: u32,
    count: u32,
    k: u32,
    positions: &mut [u32; pattern::POINT_NUMBERS],
    faults: &mut [u32; 6],
) -> Option<u32>
    requires { SheetHeld rows.now count k × (length positions.old ≡ point_numbers) × (faults.old ≡ replicate 6 0) × (first ≤ count) × ((i : ℕ) → i < first → section_at rows.now i ≡ 0) }
    ensures met { result ≡ consequent_of (faults_in (run_held run.now.words) (tags_of rows.now count) positions.old 0 k (replicate 6 0)).met }
    ensures rows { result ≡ None → faults.new ≡ (faults_in (run_held run.now.words) (tags_of rows.now count) positions.old 0 k (replicate 6 0)).rows }
    ensures kept { Kept (tags_of rows.now count) positions.old positions.new }
{
    let mut j = first;
    'consequents: for c in 0..k {
        // A `loop`: it is broken with the row at fault, and the next consequent goes on from where it was left.
        let row = 'rows: loop {
            if count <= j {
                break 'rows 0;
            }
            if row::section_of(rows, j as usize) != c + 1 {
                j += 1;
                continue 'rows;
            }
            if !advance(run, positions, rows, j) {
                break 'rows j + 1;
            }
            j += 1;
        };
        if row == 0 {
            return Some(c + 1);
        }
        faults[c as usize] = row;
    }
    None
}
