// Numbers in columns: the reader of a field of any width, and the writer.
#![tactic(auto)]

ghost use Rattle.std.specs.Prelude.{◌≡◌, true, ◌++◌, ◌+◌, ◌≤◌, length, take, drop};
ghost use Rattle.columns.specs.Number.{after_spaces, numeral, field_at};
ghost use Rattle.columns.specs.Spell.{last_byte, left_byte, spell, fits_in};
ghost use Rattle.columns.specs.Entry.{entry_of, entered};

const SPACE: u8 = 32;

const ZERO: u8 = 48;

const NINE: u8 = 57;

// The largest number that a field holds, at every width, and how many digits it has.
const LARGEST: u64 = 4294967295;

const MOST_DIGITS: usize = 10;

// A number was not written: it has more digits than columns, or its field is not wholly in the buffer.
#[derive(Clone, Copy, Debug, PartialEq, Eq)]
pub struct Misfit;

// The index of the first byte that is no space, or the length.
fn spaces(s: &[u8]) -> usize
    ensures { (result ≤ length s.now) × (drop result s.now ≡ after_spaces s.now) }
{
    s.iter().position(|b| *b != SPACE).unwrap_or(s.len())
}

// The whole of s as a numeral; none where the bytes are not well formed. As many digits as LARGEST's fit 64 bits, and it is asked about at the end; fewer are below it, and more have a
// leading zero or are over it.
fn digits(s: &[u8]) -> Option<u32>
    ensures { result ≡ numeral s.now }
{
    if s.is_empty() || MOST_DIGITS < s.len() {
        return None;
    }
    if 1 < s.len() && s[0] == ZERO {
        return None;
    }
    let mut v: u64 = 0;
    for b in s {
        if *b < ZERO || NINE < *b {
            return None;
        }
        v = v * 10 + (u64::from(*b) - u64::from(ZERO));
    }
    if s.len() < MOST_DIGITS {
        return Some(v as u32);
    }
    if LARGEST < v {
        return None;
    }
    Some(v as u32)
}

// The number in the first `width` bytes of s, where they are well formed; what stands after them is not looked at.
pub fn number(s: &[u8], width: usize) -> Option<u32>
    ensures { result ≡ field_at s.now width }
{
    if s.len() < width {
        return None;
    }
    let field = &s[..width];
    let at = spaces(field);
    digits(&field[at..])
}

// The byte of v's last digit.
fn last_byte(v: u32) -> u8
    ensures { result ≡ last_byte v }
{
    ZERO + (v % 10) as u8
}

// The byte left of what is written, where v is left to write.
fn left_byte(v: u32) -> u8
    ensures { result ≡ left_byte v }
{
    if v == 0 { SPACE } else { last_byte(v) }
}

// Whether v has a spelling in `width` columns: every number has one in as many as LARGEST's.
fn fits_in(width: usize, v: u32) -> bool
    ensures { result ≡ fits_in width v }
{
    0 < width && (MOST_DIGITS <= width || u64::from(v) < 10u64.pow(width as u32))
}

// Writes v into the field of `width` columns from index `at` on, from its last column to its first. v has a spelling in so many columns, and
// the field is in the buffer: a number that does not fit cannot be asked for.
pub fn write_number(buf: &mut [u8], at: usize, width: usize, v: u32)
    requires { (fits_in width v ≡ true) × (at + width ≤ length buf.old) }
    ensures { buf.new ≡ take at buf.old ++ (spell width v ++ drop (at + width) buf.old) }
{
    let last = width - 1;
    buf[at + last] = last_byte(v);
    let mut rest = v / 10;
    for i in (0..last).rev() {
        buf[at + i] = left_byte(rest);
        rest /= 10;
    }
}

// Writes v into the field of `width` columns from index `at` on. Refused, and every byte as it was, where v has more digits than columns
// or the field is not wholly in the buffer.
pub fn write_field(buf: &mut [u8], at: usize, width: usize, v: u32) -> Result<(), Misfit>
    ensures answer { result ≡ entry_of (length buf.old) at width v }
    ensures memory { buf.new ≡ entered at width v buf.old }
{
    if !fits_in(width, v) || buf.len() < width || buf.len() - width < at {
        return Err(Misfit);
    }
    write_number(buf, at, width, v);
    Ok(())
}
