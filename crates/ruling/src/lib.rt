// Whether antiscenario `number` of a sheet is impossible: its rows contradict each other. Document 02, A6.
#![tactic(auto)]

ghost use Rattle.std.specs.Prelude.{◌≡◌, OnOk};
ghost use Rattle.ruling.specs.Ruling.{numbered, impossible_of, RulingSays};

use refusal::Refusal;

// "An operation says whether number m is impossible. .. Its refusals are the sheet's and 31."
pub fn is_impossible(sheet: &[u8], number: u64) -> Result<bool, Refusal>
    ensures answer { numbered result ≡ impossible_of sheet.now number }
    ensures says { OnOk result (RulingSays sheet.now number (numbered result)) }
{
    let mut rows = [0u32; pattern::ROWS_ROOM];
    let stored = antiscenario::load_text(sheet, number, &mut rows)?;
    Ok(contradiction::contradict(&rows, stored.rows))
}
