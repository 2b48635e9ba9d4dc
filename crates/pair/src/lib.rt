// A sheet and a log in memory, read one after the other; and the plan for the antecedent, by which its matchings are gone through.
#![tactic(auto)]

ghost use Rattle.std.specs.Prelude.{◌≡◌, ℕ, ◌≤◌, length, get_or, IfOk};
ghost use Rattle.rules.specs.Numbers.{most_rows};
ghost use Rattle.run.specs.Maps.{Blank};
ghost use Rattle.run.specs.Held.{run_held};
ghost use Rattle.row.specs.Memory.{tags_of};
ghost use Rattle.sheet.specs.Numbers.{sheet_room};
ghost use Rattle.sheet.specs.Held.{SheetHeld};
ghost use Rattle.pair.specs.Pair.{refusal_of, PairHeld};
ghost use Rattle.pair.specs.Antecedent.{leading, AntecedentPlanned};
ghost use Rattle.refusal.specs.Refusal.{refused_with};

use refusal::Refusal;

// A sheet that was read beside a log: its number of rows and k.
#[derive(Clone, Copy)]
pub struct PairRead {
    pub rows: u32,
    pub k: u32,
}

// Reads a sheet and a log into memory, in which there are zeros: the sheet's refusals, then the log's; else both are there.
pub fn load(
    sheet: &[u8],
    log: &[u8],
    rows: &mut [u32; pattern::ROWS_ROOM],
    run: &mut run::Run,
) -> Result<PairRead, Refusal>
    requires { (sheet_room ≤ length rows.old) × ((i : ℕ) → get_or run.old.words i 0 ≡ 0) }
    ensures refusal { refused_with result ≡ refusal_of sheet.now log.now }
    ensures memory { IfOk result (λ read. PairHeld sheet.now log.now rows.new read.rows read.k run.new.words) }
{
    let extent = sheet::load_sheet(sheet, rows)?;
    runlog::load_log(log, run)?;
    Ok(PairRead {
        rows: extent.rows as u32,
        k: extent.k,
    })
}

// How many rows of section 0 stand at the front.
fn leading_rows(rows: &[u32; pattern::ROWS_ROOM], count: u32) -> u32
    requires { count ≤ most_rows }
    ensures { result ≡ leading (tags_of rows.now count) }
{
    for j in 0..count {
        if row::section_of(rows, j as usize) != 0 {
            return j;
        }
    }
    count
}

// Draws up the plan for the antecedent's rows, and the maps of the run where it is worth it.
pub fn prepare(run: &mut run::Run, rows: &[u32; pattern::ROWS_ROOM], count: u32) -> plan::Plan
    requires { Blank run.old.words × ((k : ℕ) × SheetHeld rows.now count k) }
    ensures same { run_held run.new.words ≡ run_held run.old.words }
    ensures planned { (k : ℕ) → SheetHeld rows.now count k → AntecedentPlanned rows.now count k result.tables }
{
    let plan = plan::Plan::prepare(rows, leading_rows(rows, count));
    placement::draw_maps(run, plan.tables.point_at(1));
    plan
}
