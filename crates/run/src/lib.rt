// A run in memory, one array: of each position its tick and its event, of each event a map of the lines that have it, and the number of lines.
#![tactic(auto)]

ghost use Rattle.std.specs.Prelude.{◌≡◌, ◌+◌, ◌*◌, ◌<◌, ◌-◌, get_or, set, replicate};
ghost use Rattle.scenario.specs.Rows.{set_of};
ghost use Rattle.scenario.specs.Log.{in_set, has_at, sure};
ghost use Rattle.run.specs.Words.{position_count, ticks_in, events_in, line_count};
ghost use Rattle.run.specs.Held.{Held, part, tick_of, near_of, Before};

// The set of all events, 0 to 63: the sum of 2^e over them.
pub const FULL_SET: u64 = 18446744073709551615;

// 2^32: what a 1 of the upper half of a word counts, and of a set.
pub const UPPER_ONE: u64 = 4294967296;

// Words of 4,000 lines, the start before them and the close behind; then the maps of 64 events, 64 words each, which of the events have a map, and the number of lines.
pub const ROOM: usize = 8100;

pub const MAPS: usize = 4002;

pub const PRESENT: usize = 8098;

const LINES: usize = 8099;

// A run in memory: its words, which are those of a run.
#[derive(Drop)]
pub struct Run {
    pub words: [u64; ROOM],
    pub ghost held: { Held words },
}

impl Run {
    // A run without lines.
    pub fn new() -> Run
        ensures { result.words ≡ replicate 8100 0 }
    {
        Run { words: [0; ROOM] }
    }

    // The number of lines.
    pub fn lines(&self) -> u32
        ensures { result ≡ line_count self.now.words }
    {
        self.words[LINES] as u32
    }

    // The event of a position; the start and the close have none.
    pub fn event_at(&self, x: u32) -> u32
        requires { x < position_count }
        ensures { result ≡ get_or (events_in self.now.words) x 0 }
    {
        (self.words[x as usize] / UPPER_ONE) as u32
    }

    // The tick that is entered at a position.
    fn tick_in(&self, x: u32) -> u32
        requires { x < position_count }
        ensures { result ≡ get_or (ticks_in self.now.words) x 0 }
    {
        (self.words[x as usize] % UPPER_ONE) as u32
    }

    // The tick of position x: the close's for every position past the lines.
    pub fn tick_at(&self, x: u32) -> u32
        ensures { result ≡ tick_of (ticks_in self.now.words) (line_count self.now.words) x }
    {
        self.tick_in(x.min(self.lines() + 1))
    }

    // Whether position x is a line with its event in the set s.
    pub fn has(&self, s: u64, x: u32) -> bool
        ensures { result ≡ has_at (part (events_in self.now.words) (line_count self.now.words)) s x }
    {
        1 <= x && x <= self.lines() && member(s, self.event_at(x))
    }

    // Whether positions x and y surely keep the limits lo and hi: on one position the distance is exactly 0.
    pub fn near(&self, x: u32, y: u32, lo: u32, hi: u32) -> bool
        ensures { result ≡ near_of (ticks_in self.now.words) (line_count self.now.words) x y lo hi }
    {
        let s = self.tick_at(x);
        let t = self.tick_at(y);
        if x == y {
            return lo == 0;
        }
        surely(lo, hi, s.abs_diff(t))
    }

    // How many lines have a tick below the limit: ticks never fall.
    pub fn lines_before(&self, limit: u64) -> u32
        ensures { Before self.now.words limit result }
    {
        let mut low: u32 = 0;
        let mut high = self.lines();
        // A `while`: a binary search, over ticks that stand in words with events and so are no slice to search.
        while low < high {
            let middle = (low + high + 1) / 2;
            if u64::from(self.tick_in(middle)) < limit {
                low = middle;
            } else {
                high = middle - 1;
            }
        }
        low
    }
}

// Enters the tick and the event of position x.
pub fn enter(words: &mut [u64; ROOM], x: usize, tick: u32, event: u32)
    requires { x < position_count }
    ensures { words.new ≡ set words.old x (set_of tick event) }
{
    words[x] = u64::from(tick) + UPPER_ONE * u64::from(event);
}

// Enters the number of lines.
pub fn enter_lines(words: &mut [u64; ROOM], n: usize)
    ensures { words.new ≡ set words.old 8099 n }
{
    words[LINES] = n as u64;
}

pub fn member(s: u64, e: u32) -> bool
    requires { e < 64 }
    ensures { result ≡ in_set s e }
{
    (s >> e) % 2 == 1
}

// Whether a distance d of two positions surely keeps the limits (document 02, A9): d + 1 is at most hi, and d - 1 (0 if d is 0) at least lo. The sum d + 1 need
// not fit in 32 bits.
fn surely(lo: u32, hi: u32, d: u32) -> bool
    ensures { result ≡ sure lo hi d }
{
    d < hi && (lo == 0 || lo < d)
}
