// Where links lead: a table of sets of places, a word to a place, into which links are entered one after another.
#![tactic(auto)]

ghost use Rattle.std.specs.Prelude.{◌≤◌, ◌<◌, length, eqb};
ghost use Rattle.links.specs.Table.{most_places, Tells, Onward, entered};

// The most places that a table has: a set of them is one word.
pub const MOST_PLACES: usize = 60;

// Every place leads to itself.
pub fn begin(table: &mut [u64])
    requires { length table.old ≤ most_places }
    ensures { Tells (length table.old) table.new eqb }
{
    let mut alone: u64 = 1;
    for set in table.iter_mut() {
        *set = alone;
        alone *= 2;
    }
}

// A set, with all that is beyond a place that it has.
fn onward(set: u64, from: u32, beyond: u64) -> u64
    requires { from < most_places }
    ensures { Onward set from beyond result }
{
    if run::member(set, from) {
        set | beyond
    } else {
        set
    }
}

// Enters a link: what leads to its first place leads to all that its second leads to.
pub fn enter(table: &mut [u64], from: u32, to: u32)
    requires { (length table.old ≤ most_places) × (from < length table.old) × (to < length table.old) }
    ensures { Tells (length table.old) table.new (entered table.old from to) }
{
    let beyond = table[to as usize];
    for set in table.iter_mut() {
        *set = onward(*set, from, beyond);
    }
}
