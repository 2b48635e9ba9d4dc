// Show the line: the part of the sheet or of the log that the check's refusal is about.
#![tactic(auto)]

ghost use Rattle.std.specs.Prelude.{◌≡◌, ◌≤◌, min, length};
ghost use Rattle.refusal.specs.Refusal.{number};
ghost use Rattle.line.specs.Showing.{part, line_part, part_of, shown_line, Inside, Stands};
ghost use Rattle.line.specs.Numbered.{is_log, numbered};

use refusal::Refusal;

// The text that a part is of.
#[derive(Clone, Copy, Debug, PartialEq, Eq)]
pub enum Text {
    Sheet,
    Log,
}

impl Text {
    pub fn is_log(self) -> bool
        ensures { result ≡ is_log self }
    {
        match self {
            Text::Sheet => false,
            Text::Log => true,
        }
    }
}

// The check's refusal, if there is one, and the part that it is about: of which text, from where to where.
#[derive(Clone, Copy)]
pub struct Part {
    pub refusal: Option<Refusal>,
    pub text: Text,
    pub from: usize,
    pub to: usize,
}

// The first line of a text: its first `most` bytes, or all if it is shorter.
fn front_part(bytes: &[u8], text: Text, refusal: Refusal, most: usize) -> Part
    ensures { numbered result ≡ part (number refusal) (is_log text) 0 (min most (length bytes.now)) }
{
    Part {
        refusal: Some(refusal),
        text,
        from: 0,
        to: most.min(bytes.len()),
    }
}

// What a refusal is about, of a text whose first line has `first` bytes and whose other lines have `wide`: for the refusals from low to high the line, else the
// first line.
fn line_part(
    bytes: &[u8],
    text: Text,
    first: usize,
    wide: usize,
    low: u32,
    high: u32,
    refusal: Refusal,
    line: u32,
) -> Part
    requires { low ≤ number refusal → number refusal ≤ high → Stands (length bytes.now) first wide line }
    ensures { numbered result ≡ line_part (is_log text) first wide low high bytes.now (number refusal) line }
{
    let asked = refusal.number();
    if asked < low || high < asked {
        return front_part(bytes, text, refusal, first);
    }
    let from = first + wide * (line as usize - 1);
    Part {
        refusal: Some(refusal),
        text,
        from,
        to: from + wide,
    }
}

// Which part the check's refusal is about; nothing refused, the empty part at the sheet's front.
pub fn shown_part(sheet: &[u8], log: &[u8]) -> Part
    ensures answer { numbered result ≡ part_of sheet.now log.now }
    ensures inside { Inside sheet.now log.now (numbered result) }
{
    let mut rows = [0u32; sheet::SHEET_ROOM];
    if let Err(refused) = sheet::load_sheet(sheet, &mut rows) {
        let refusal = Refusal::Sheet(refused.refusal);
        return line_part(sheet, Text::Sheet, 7, 35, 4, 10, refusal, refused.row);
    }
    let mut run = run::Run::new();
    if let Err(refused) = runlog::load_log(log, &mut run) {
        let refusal = Refusal::Log(refused.refusal);
        return line_part(log, Text::Log, 28, 15, 24, 26, refusal, refused.line);
    }
    Part {
        refusal: None,
        text: Text::Sheet,
        from: 0,
        to: 0,
    }
}

// Hands back the bytes of the line that the check's refusal is about. It refuses nothing.
pub fn show_line<'a>(sheet: &'a [u8], log: &'a [u8]) -> &'a [u8]
    ensures { result.now ≡ shown_line sheet.now log.now }
{
    let part = shown_part(sheet, log);
    let bytes = match part.text {
        Text::Sheet => sheet,
        Text::Log => log,
    };
    &bytes[part.from..part.to]
}
