// Packed patterns as cells, and rule 8.
ghost use Rattle.std.specs.Prelude.{◌≡◌, ◌+◌, ◌*◌, ◌≤◌, ◌<◌, length, ◌^◌};
ghost use Rattle.laws.specs.Entries.{some};
ghost use Rattle.s3m.specs.Layout.{pointer_at};
ghost use Rattle.s3m.specs.Patterns.{pattern_cells, cells_of, pattern_past, patterns_past};

use crate::header::pointer_at;

// Where the packed rows of a pattern pointer begin.
fn place_of(pointer: u16) -> usize
    ensures { (result ≡ pointer * 16 + 2) × (result < 2 ^ 32) }
{
    usize::from(pointer) * 16 + 2
}

fn pattern_past(file: &[u8], pointer: u16) -> bool
    ensures { result ≡ pattern_past file.now pointer }
{
    if pointer == 0 {
        return false;
    }
    packed::runs_past(file, place_of(pointer))
}

// The same of pointer k of a list.
fn past_at(file: &[u8], list: usize, k: usize) -> bool
    requires { (k < 100) × (list + (k + 1) * 2 ≤ length file.now) }
    ensures { result ≡ pattern_past file.now (pointer_at file.now list k) }
{
    pattern_past(file, pointer_at(file, list, k))
}

// The same of the four pointers from number k on.
fn four_past(file: &[u8], list: usize, k: usize) -> bool
    requires { (k < 100) × (list + (k + 4) * 2 ≤ length file.now) }
    ensures { result ≡ some 4 (λ j. pattern_past file.now (pointer_at file.now list (k + j))) }
{
    let a = pointer_at(file, list, k);
    let b = pointer_at(file, list, k + 1);
    let c = pointer_at(file, list, k + 2);
    let d = pointer_at(file, list, k + 3);
    if (a == 0) | (b == 0) | (c == 0) | (d == 0) {
        return pattern_past(file, a)
            | pattern_past(file, b)
            | pattern_past(file, c)
            | pattern_past(file, d);
    }
    packed::any_runs_past(file, place_of(a), place_of(b), place_of(c), place_of(d))
}

// Rule 8, over the n pointers of a list: four at a time, and then those that are left, so the index goes on by 4 or by 1 and no
// `for` counts it. List and n stay two numbers beside the file, as the definitions have them.
pub fn patterns_past(file: &[u8], list: usize, n: usize) -> bool
    requires { (n ≤ 100) × (list + n * 2 ≤ length file.now) }
    ensures { result ≡ patterns_past file.now list n }
{
    let mut k: usize = 0;
    while k < n {
        if k + 4 <= n {
            if four_past(file, list, k) {
                return true;
            }
            k += 4;
        } else {
            if past_at(file, list, k) {
                return true;
            }
            k += 1;
        }
    }
    false
}

// The cells of a pattern pointer, in the pattern's own stretch.
fn put_pattern(part: &mut [u8], file: &[u8], pointer: u16)
    requires { length part.old ≡ 10240 }
    ensures { part.new ≡ pattern_cells file.now pointer }
{
    if pointer == 0 {
        packed::fill_empty(part.as_mut_array().unwrap());
        return;
    }
    packed::unpack(file, place_of(pointer), part.as_mut_array().unwrap());
}

// The cells of the n pointers of a list, each in the part of the table from its number times 10,240.
pub fn read_cells(file: &[u8], list: usize, n: usize, cells: &mut [u8])
    requires { (n ≤ 100) × (list + n * 2 ≤ length file.now) × (length cells.old ≡ n * 10240) }
    ensures { cells.new ≡ cells_of file.now list n }
{
    for k in 0..n {
        let pointer = pointer_at(file, list, k);
        put_pattern(&mut cells[k * 10240..k * 10240 + 10240], file, pointer);
    }
}
