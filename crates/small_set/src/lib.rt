// The set of register units, one flag for each unit in a lent table: lent, since a set that is passed by value is copied at each step.
#![tactic(auto)]

ghost use Rattle.std.specs.Prelude.{◌≡◌, ◌<◌, length};
ghost use Rattle.small_set.specs.Set.{set_of, empty_set, inserted, removed};

use entity::RegUnit;

pub type RegUnitSet = [bool; 512];

pub fn contains(s: &RegUnitSet, u: RegUnit) -> bool
    requires { u.0 < 512 }
    ensures { result ≡ set_of s.now u.0 }
{
    let at = u.0 as usize;
    s[at]
}

pub fn insert(s: &mut RegUnitSet, u: RegUnit)
    requires { u.0 < 512 }
    ensures { (set_of s.new ≡ inserted (set_of s.old) u.0) × (length s.new ≡ 512) }
{
    let i = u.0 as usize;
    s[i] = true;
}

pub fn remove(s: &mut RegUnitSet, u: RegUnit)
    requires { u.0 < 512 }
    ensures { (set_of s.new ≡ removed (set_of s.old) u.0) × (length s.new ≡ 512) }
{
    let i = u.0 as usize;
    s[i] = false;
}

pub fn clear(s: &mut RegUnitSet)
    ensures { (set_of s.new ≡ empty_set) × (length s.new ≡ 512) }
{
    *s = [false; 512];
}

pub fn copy_from(s: &mut RegUnitSet, other: &RegUnitSet)
    ensures { s.new ≡ other.now }
{
    *s = *other;
}
