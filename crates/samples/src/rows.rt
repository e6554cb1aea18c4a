// Rows of samples: one copied in the place of another's first, and one added to them.
ghost use Rattle.std.specs.Prelude.{◌≡◌, ℕ, ◌+◌, ◌^◌, ◌≤◌, ◌<◌, nat_abs, ◌+ℤ◌, length};
ghost use Rattle.sums.specs.Lists.{at, table, put};

// Samples in the place of a row's first. The library's `copy_from_slice` would have the C library need `memmove` from outside.
pub fn copy_in(part: &[i32], row: &mut [i32])
    requires { length part.now ≤ length row.old }
    ensures { row.new ≡ put (table (length part.now) (at part.now)) row.old }
{
    for j in 0..part.len() {
        row[j] = part[j];
    }
}

// Samples added to a row's first.
pub fn add_in(part: &[i32], row: &mut [i32])
    requires { (length part.now ≤ length row.old) × ((j : ℕ) → j < length part.now → nat_abs (at row.old j) + nat_abs (at part.now j) < 2 ^ 31) }
    ensures { row.new ≡ put (table (length part.now) (λ j. at row.old j +ℤ at part.now j)) row.old }
{
    for j in 0..part.len() {
        row[j] += part[j];
    }
}
