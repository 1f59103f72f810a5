// The sparse map of a unit's writer: units to numbers, in one lent table that may hold anything before it is cleared.
#![tactic(auto)]

ghost use Rattle.std.specs.Prelude.{◌≡◌, ◌<◌, ◌≤◌, length, get_or};
ghost use Rattle.std.proofs.Math.Option.{none};
ghost use Rattle.sparse.specs.Map.{map_of, keys_of, found_of, Linked, Placed, Emptied, Inserted, Shortened};

use entity::AllocationUnit;

pub type SparseMap = [u16; 6657];

// Forgets every key. The rest of the table stays as it is: so a patch begins with one store, not with one for each of 4,608 units.
pub fn clear(t: &mut SparseMap)
    ensures { Emptied t.old t.new }
{
    t[6656] = 0;
}

// How many keys there are.
pub fn len(t: &SparseMap) -> usize
    ensures { result ≡ length (keys_of t.now) }
{
    usize::from(t[6656])
}

// The key that was put in as number j.
pub fn key_at(t: &SparseMap, j: usize) -> AllocationUnit
    requires { Linked t.now × (j < length (keys_of t.now)) }
    ensures { result.0 ≡ get_or (keys_of t.now) j 0 }
{
    AllocationUnit(t[4608 + j * 2])
}

// Where the key stands, else the count: what its sparse cell says counts only where that place has the key. So the cell may hold anything, what an
// earlier patch left too.
fn place_of(t: &SparseMap, k: usize) -> usize
    requires { Linked t.now × (k < 4608) }
    ensures { Placed t.now k result }
{
    let n = usize::from(t[6656]);
    let i = usize::from(t[k]);
    if n <= i {
        return n;
    }
    let x = usize::from(t[4608 + i * 2]);
    if x == k {
        return i;
    }
    n
}

pub fn get(t: &SparseMap, u: AllocationUnit) -> Option<u16>
    requires { Linked t.now × (u.0 < 4608) }
    ensures { found_of result ≡ map_of t.now u.0 }
{
    let n = usize::from(t[6656]);
    let i = place_of(t, u.0 as usize);
    if n <= i {
        return None;
    }
    Some(t[4609 + i * 2])
}

// A key that is not there is put in.
pub fn insert(t: &mut SparseMap, u: AllocationUnit, v: u16)
    requires { Linked t.old × (u.0 < 4608) × (length (keys_of t.old) < 1024) × (map_of t.old u.0 ≡ none) }
    ensures { Inserted t.old t.new u.0 v }
{
    let k = u.0 as usize;
    let n = usize::from(t[6656]);
    t[4609 + n * 2] = v;
    t[k] = n as u16;
    t[4608 + n * 2] = u.0;
    t[6656] = (n + 1) as u16;
}

// Forgets all but the first n keys. Keys stand in the order in which they were put in, so this takes back the last ones, as a refused entry must.
pub fn shorten(t: &mut SparseMap, n: usize)
    requires { Linked t.old × (n ≤ length (keys_of t.old)) }
    ensures { Shortened t.old t.new n }
{
    t[6656] = n as u16;
}
