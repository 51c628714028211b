// Exact arithmetic on signed numbers. Each result is the mathematical one, and each `requires` asks for room in terms of the sizes of the
// arguments alone: whatever order the sum is taken in, no part of it is larger. So a caller that knows bounds on its numbers shows it by one
// computed test (`room` of `proofs/Machine.antt`), and needs none of the parts.
#![tactic(auto)]

ghost use Rattle.std.specs.Prelude.{◌≡◌, ◌+◌, ◌*◌, ◌^◌, ◌<◌, nat_abs, ◌+ℤ◌, ◌-ℤ◌, ◌*ℤ◌};
ghost use Rattle.integer.specs.Magnitude.{sign_of};

pub fn difference(a: i64, b: i64) -> i64
    requires { nat_abs a + nat_abs b < 2 ^ 63 }
    ensures { result ≡ a -ℤ b }
{
    a - b
}

pub fn product(x: i64, y: i64) -> i64
    requires { nat_abs x * nat_abs y < 2 ^ 63 }
    ensures { result ≡ x *ℤ y }
{
    x * y
}

// A part of a cross product.
pub fn cross_part(a: i64, b: i64, c: i64, d: i64) -> i64
    requires { nat_abs a * nat_abs b + nat_abs c * nat_abs d < 2 ^ 63 }
    ensures { result ≡ a *ℤ b -ℤ c *ℤ d }
{
    a * b - c * d
}

pub fn dot(ax: i64, ay: i64, az: i64, bx: i64, by: i64, bz: i64) -> i64
    requires { nat_abs ax * nat_abs bx + nat_abs ay * nat_abs by + nat_abs az * nat_abs bz < 2 ^ 63 }
    ensures { result ≡ ax *ℤ bx +ℤ ay *ℤ by +ℤ az *ℤ bz }
{
    ax * bx + ay * by + az * bz
}

// -1, 0 or 1: the library's number for a sign, under the definition that callers reason by.
pub fn sign(x: i64) -> i64
    ensures { result ≡ sign_of x }
{
    x.signum()
}
