// The values that open moves carry, as one lent list of rows. One list serves all moves: a closed move adds eight rows at most, one for each unit of
// its source, and what a closed move carried is left where it stands, as nobody asks for it again.
#![tactic(auto)]

ghost use Rattle.std.specs.Prelude.{◌≡◌, [], ◌∷◌, ◌++◌, ℕ, ◌+◌, ◌<◌, ◌≤◌, eqb, length};
ghost use Rattle.entity.specs.Logic.{pick, and, has};
ghost use Rattle.carried.specs.Carried.{count_of, move_at, value_at, carried_by};

use entity::Value;

pub type Carried = [u16; 2049];

// Nothing is carried. What the table held does not matter.
pub fn clear(c: &mut Carried)
    ensures { (count_of c.new ≡ 0) × ((m : ℕ) → carried_by c.new m ≡ []) }
{
    c[2048] = 0;
}

// How many rows there are.
pub fn len(c: &Carried) -> usize
    ensures { result ≡ count_of c.now }
{
    usize::from(c[2048])
}

// The move of row i.
pub fn row_move(c: &Carried, i: usize) -> usize
    requires { i < 1024 }
    ensures { result ≡ move_at c.now i }
{
    usize::from(c[i * 2])
}

// The value of row i.
pub fn row_value(c: &Carried, i: usize) -> Value
    requires { i < 1024 }
    ensures { result.0 ≡ value_at c.now i }
{
    Value(c[1 + i * 2])
}

// Whether row i is that move and value.
fn row_is(c: &Carried, i: usize, m: usize, v: Value) -> bool
    requires { i < 1024 }
    ensures { result ≡ and (eqb (move_at c.now i) m) (eqb v.0 (value_at c.now i)) }
{
    if row_move(c, i) != m {
        return false;
    }
    let x = row_value(c, i);
    v == x
}

// Whether the move m carries the value. Asked before a row is added, since a writer counts once, however many units of the source it writes.
pub fn carries(c: &Carried, m: usize, v: Value) -> bool
    requires { count_of c.now ≤ 1024 }
    ensures { result ≡ has v.0 (carried_by c.now m) }
{
    let n = len(c);
    for i in 0..n {
        if row_is(c, i, m, v) {
            return true;
        }
    }
    false
}

// The move m carries the value from now on, behind what it carries already: values are let go in the order received.
pub fn add(c: &mut Carried, m: usize, v: Value)
    requires { (count_of c.old < 1024) × (m < 128) }
    ensures { (count_of c.new ≡ count_of c.old + 1) × ((x : ℕ) → carried_by c.new x ≡ pick (eqb x m) (carried_by c.old m ++ (v.0 ∷ [])) (carried_by c.old x)) }
{
    let n = usize::from(c[2048]);
    c[n * 2] = m as u16;
    c[1 + n * 2] = v.0;
    c[2048] = (n + 1) as u16;
}
