// One value in the place of a buffer's first numbers.
ghost use Rattle.std.specs.Prelude.{◌≡◌, ◌≤◌, length};
ghost use Rattle.sums.specs.Lists.{table, put};

pub fn fill_front<T: Copy>(v: &mut [T], count: usize, value: T)
    requires { count ≤ length v.old }
    ensures { v.new ≡ put (table count (λ _. value)) v.old }
{
    for x in &mut v[..count] {
        *x = value;
    }
}
