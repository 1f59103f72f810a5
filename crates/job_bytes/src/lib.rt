// Numbers, targets and functions as bytes, put one behind the other into working bytes: "job bytes out, in shortest numbers" (02 a).
#![tactic(auto)]

ghost use Rattle.std.specs.Prelude.{◌≡◌, ℕ, List, [], ◌∷◌, ◌+◌, ◌*◌, ◌<◌, ◌≤◌, length, get_or};
ghost use Rattle.entity.specs.Logic.{cells, indices};
ghost use Rattle.reginfo.specs.Refused.{Accepted};
ghost use Rattle.reginfo.specs.Table.{bank_at, reg_at, class_at, reg_info_of};
ghost use Rattle.function.specs.Function.{num_values};
ghost use Rattle.function.specs.Table.{value_at, function_of};
ghost use Rattle.number.specs.Number.{encoded};
ghost use Rattle.job_numbers.specs.Numbers.{counted, each_of, bank_numbers, reg_numbers, class_numbers, target_numbers, value_numbers, function_numbers, bytes_of};
ghost use Rattle.job_bytes.specs.Puts.{Puts, rows, FewUnits, FewMembers};

use function::Function;
use reginfo::RegInfo;

// As many bytes as a job has at most.
pub type Work = [u8; 65536];

// Puts one byte at `at`: where the next one goes, unless there is no room.
fn put_byte(work: &mut Work, at: usize, b: u8) -> Option<usize>
    ensures { Puts work.old at (b ∷ []) work.new result }
{
    if at < 65536 {
        work[at] = b;
        return Some(at + 1);
    }
    None
}

// A number of two groups or more; or of one.
fn put_groups(work: &mut Work, at: usize, n: u32) -> Option<usize>
    ensures { Puts work.old at (encoded n) work.new result }
{
    let mut q = at;
    let mut rest = n;
    // Kept a `while`: it ends with the number, and counts nothing.
    while 128 <= rest {
        q = put_byte(work, q, (rest % 128 + 128) as u8)?;
        rest /= 128;
    }
    put_byte(work, q, rest as u8)
}

// A number in its shortest form.
pub fn put_number(work: &mut Work, at: usize, n: u32) -> Option<usize>
    ensures { Puts work.old at (encoded n) work.new result }
{
    if n < 128 {
        return put_byte(work, at, n as u8);
    }
    put_groups(work, at, n)
}

// A cell of a table.
fn put_cell(work: &mut Work, at: usize, x: u16) -> Option<usize>
    ensures { Puts work.old at (encoded x) work.new result }
{
    put_number(work, at, x as u32)
}

fn put_two(work: &mut Work, at: usize, a: u16, b: u16) -> Option<usize>
    ensures { Puts work.old at (bytes_of (a ∷ b ∷ [])) work.new result }
{
    let next = put_cell(work, at, a)?;
    put_cell(work, next, b)
}

// The n cells from `start` on.
fn put_cells(work: &mut Work, at: usize, t: &RegInfo, start: usize, n: u16) -> Option<usize>
    requires { start + n ≤ 107520 }
    ensures { Puts work.old at (bytes_of (cells t.now start n)) work.new result }
{
    let mut q = at;
    for i in 0..usize::from(n) {
        q = put_cell(work, q, t[start + i])?;
    }
    Some(q)
}

// So many, and then the cells.
fn put_list(work: &mut Work, at: usize, t: &RegInfo, start: usize, n: u16) -> Option<usize>
    requires { start + n ≤ 107520 }
    ensures { Puts work.old at (bytes_of (counted (cells t.now start n))) work.new result }
{
    let next = put_cell(work, at, n)?;
    put_cells(work, next, t, start, n)
}

// Bank b.
fn put_bank(work: &mut Work, at: usize, t: &RegInfo, b: usize) -> Option<usize>
    requires { b < 8 }
    ensures { Puts work.old at (bytes_of (bank_numbers (bank_at t.now b))) work.new result }
{
    let next = put_two(work, at, t[8704 + b * 4], t[8705 + b * 4])?;
    put_cell(work, next, t[8706 + b * 4])
}

// Register r.
fn put_reg(work: &mut Work, at: usize, t: &RegInfo, r: usize) -> Option<usize>
    requires { (r < 512) × (get_or t.now (2 + r * 16) 0 ≤ 8) }
    ensures { Puts work.old at (bytes_of (reg_numbers (reg_at t.now r))) work.new result }
{
    let next = put_two(work, at, t[r * 16], t[1 + r * 16])?;
    put_list(work, next, t, 8 + r * 16, t[2 + r * 16])
}

// Class c.
fn put_class(work: &mut Work, at: usize, t: &RegInfo, c: usize) -> Option<usize>
    requires { (c < 64) × (get_or t.now (8194 + c * 8) 0 ≤ 512) × (get_or t.now (8195 + c * 8) 0 ≤ 512) }
    ensures { Puts work.old at (bytes_of (class_numbers (class_at t.now c))) work.new result }
{
    let a = put_two(work, at, t[8192 + c * 8], t[8193 + c * 8])?;
    let next = put_list(work, a, t, 9216 + c * 512, t[8194 + c * 8])?;
    put_list(work, next, t, 41984 + c * 512, t[8195 + c * 8])
}

// The first n rows, one behind the other, each as `put` puts it.
fn put_rows<F>(work: &mut Work, at: usize, n: u16, put: F) -> Option<usize>
where
    F: Fn(&mut Work, usize, usize) -> Option<usize>,
    requires { (w : _) (q i : _) → i < n → F.pre put w q i }
    ensures { (row : _) → ((w q i r v : _) → i < n → F.post put w q i r v → Puts w.now q (row i) v.now r) → Puts work.old at (rows row n) work.new result }
{
    let mut q = at;
    for i in 0..usize::from(n) {
        q = put(work, q, i)?;
    }
    Some(q)
}

// How many banks there are, and the banks.
fn put_banks(work: &mut Work, at: usize, t: &RegInfo) -> Option<usize>
    requires { get_or t.now 8737 0 ≤ 8 }
    ensures { Puts work.old at (bytes_of (length (reg_info_of t.now).banks ∷ each_of bank_numbers (reg_info_of t.now).banks)) work.new result }
{
    let n = t[8737];
    let next = put_cell(work, at, n)?;
    put_rows(work, next, n, |w, q, b| put_bank(w, q, t, b))
}

// How many registers there are, and the registers.
fn put_regs(work: &mut Work, at: usize, t: &RegInfo) -> Option<usize>
    requires { (get_or t.now 8738 0 ≤ 512) × FewUnits t.now (get_or t.now 8738 0) }
    ensures { Puts work.old at (bytes_of (length (reg_info_of t.now).regs ∷ each_of reg_numbers (reg_info_of t.now).regs)) work.new result }
{
    let n = t[8738];
    let next = put_cell(work, at, n)?;
    put_rows(work, next, n, |w, q, r| put_reg(w, q, t, r))
}

// How many classes there are, and the classes.
fn put_classes(work: &mut Work, at: usize, t: &RegInfo) -> Option<usize>
    requires { (get_or t.now 8739 0 ≤ 64) × FewMembers t.now (get_or t.now 8739 0) }
    ensures { Puts work.old at (bytes_of (length (reg_info_of t.now).classes ∷ each_of class_numbers (reg_info_of t.now).classes)) work.new result }
{
    let n = t[8739];
    let next = put_cell(work, at, n)?;
    put_rows(work, next, n, |w, q, c| put_class(w, q, t, c))
}

// An accepted target.
pub fn put_target(work: &mut Work, at: usize, t: &RegInfo) -> Option<usize>
    requires { Accepted (reg_info_of t.now) }
    ensures { Puts work.old at (bytes_of (target_numbers (reg_info_of t.now))) work.new result }
{
    let a = put_cell(work, at, t[8736])?;
    let b = put_banks(work, a, t)?;
    let next = put_regs(work, b, t)?;
    put_classes(work, next, t)
}

// Value v, with a class only where it can be rebuilt.
fn put_value(work: &mut Work, at: usize, f: &Function, v: usize) -> Option<usize>
    requires { v < 4096 }
    ensures { Puts work.old at (bytes_of (value_numbers (value_at f.now v))) work.new result }
{
    let cost = f[1 + v * 4];
    let next = put_two(work, at, f[v * 4], cost)?;
    if cost == 0 {
        return Some(next);
    }
    put_cell(work, next, f[2 + v * 4])
}

// A function of at most 4,096 values.
pub fn put_function(work: &mut Work, at: usize, f: &Function) -> Option<usize>
    requires { num_values (function_of f.now) ≤ 4096 }
    ensures { Puts work.old at (bytes_of (function_numbers (function_of f.now))) work.new result }
{
    let n = f[16384];
    let a = put_two(work, at, n, f[16385])?;
    let next = put_cell(work, a, f[16386])?;
    put_rows(work, next, n, |w, q, v| put_value(w, q, f, v))
}

// Numbers as they are.
pub fn put_numbers(work: &mut Work, at: usize, numbers: &[u32]) -> Option<usize>
    ensures { Puts work.old at (bytes_of numbers.now) work.new result }
{
    let mut q = at;
    for i in 0..numbers.len() {
        q = put_number(work, q, numbers[i])?;
    }
    Some(q)
}
