// Exact geometry on coordinates within ±10,000: every number fits an i64, to the ends of the range.
#![tactic(auto)]

ghost use Rattle.std.specs.Prelude.{◌≡◌};
ghost use Rattle.model.specs.Vector.{minus, dot, cross, plane_normal};
ghost use Rattle.model.specs.Questions.{up_to, parts_up_to};
ghost use Rattle.geometry.specs.Machine.{vec_of, plane_of, Bounded, VectorIs, NumberIs};
ghost use Rattle.geometry.specs.Raster.{RasterBounded, FunctionIs, one_above, counts_in, seen_by};

#[derive(Clone, Copy)]
pub struct Vector {
    pub x: i64,
    pub y: i64,
    pub z: i64,
}

// The rays of a picture, from one eye: that of column i in row j goes in the direction origin + i · across + j · down.
#[derive(Clone, Copy)]
pub struct Raster {
    pub origin: Vector,
    pub across: Vector,
    pub down: Vector,
    pub width: usize,
    pub height: usize,
}

// A number for each ray of a raster: start + i · slope + j · drop at column i of row j. The products of the rays with one edge vector are such numbers.
#[derive(Clone, Copy, Default)]
pub struct EdgeFunction {
    pub start: i64,
    pub slope: i64,
    pub drop: i64,
}

// A number from −n to n. As a range it takes one subtraction and one comparison; its magnitude takes three steps before the comparison, and question 3 asks this of every coordinate.
fn up_to(n: u16, z: i64) -> bool
    ensures { result ≡ up_to n z }
{
    let most = i64::from(n);
    (-most..=most).contains(&z)
}

// a vector with each part from −n to n
pub fn parts_up_to(n: u16, v: Vector) -> bool
    ensures { result ≡ parts_up_to n (vec_of v) }
{
    up_to(n, v.x) && up_to(n, v.y) && up_to(n, v.z)
}

// b − a
fn from_to(a: Vector, b: Vector) -> Vector
    requires { Bounded 10000 a × Bounded 10000 b }
    ensures { VectorIs 20000 (minus (vec_of b) (vec_of a)) result }
{
    Vector {
        x: arithmetic::difference(b.x, a.x),
        y: arithmetic::difference(b.y, a.y),
        z: arithmetic::difference(b.z, a.z),
    }
}

// u × v
pub fn cross_product(u: Vector, v: Vector) -> Vector
    requires { Bounded 20000 u × Bounded 20000 v }
    ensures { VectorIs 800000000 (cross (vec_of u) (vec_of v)) result }
{
    Vector {
        x: arithmetic::cross_part(u.y, v.z, u.z, v.y),
        y: arithmetic::cross_part(u.z, v.x, u.x, v.z),
        z: arithmetic::cross_part(u.x, v.y, u.y, v.x),
    }
}

// u · v
pub fn dot_product(u: Vector, v: Vector) -> i64
    requires { Bounded 800000000 u × Bounded 800000000 v }
    ensures { result ≡ dot (vec_of u) (vec_of v) }
{
    arithmetic::dot(u.x, u.y, u.z, v.x, v.y, v.z)
}

// (b − a) × (c − a)
pub fn plane_normal(a: Vector, b: Vector, c: Vector) -> Vector
    requires { Bounded 10000 a × Bounded 10000 b × Bounded 10000 c }
    ensures { VectorIs 800000000 (plane_normal (plane_of a b c)) result }
{
    cross_product(from_to(a, b), from_to(a, c))
}

// p · n: the same for all points of a plane with this normal
pub fn level(normal: Vector, p: Vector) -> i64
    requires { Bounded 800000000 normal × Bounded 10000 p }
    ensures { NumberIs 24000000000000 (dot (vec_of p) (vec_of normal)) result }
{
    dot_product(p, normal)
}

// (p − a) · n
pub fn side(normal: Vector, a: Vector, p: Vector) -> i64
    requires { Bounded 800000000 normal × Bounded 10000 a × Bounded 10000 p }
    ensures { NumberIs 48000000000000 (dot (minus (vec_of p) (vec_of a)) (vec_of normal)) result }
{
    dot_product(from_to(a, p), normal)
}

// (corner − eye) · n
pub fn eye_product(eye: Vector, corner: Vector, normal: Vector) -> i64
    requires { Bounded 10000 eye × Bounded 10000 corner × Bounded 800000000 normal }
    ensures { NumberIs 48000000000000 (dot (minus (vec_of corner) (vec_of eye)) (vec_of normal)) result }
{
    side(normal, eye, corner)
}

// (v − eye) × (w − eye)
pub fn edge_vector(eye: Vector, v: Vector, w: Vector) -> Vector
    requires { Bounded 10000 eye × Bounded 10000 v × Bounded 10000 w }
    ensures { VectorIs 800000000 (cross (minus (vec_of v) (vec_of eye)) (minus (vec_of w) (vec_of eye))) result }
{
    plane_normal(eye, v, w)
}

// 1 for a number above 0, 0 for any other
fn one_above(n: i64) -> i64
    ensures { NumberIs 1 (one_above n) result }
{
    i64::from(0 < n)
}

// 1 for an edge that counts in: its number grows from column to column or, the same in all columns, from row to row
fn counts_in(slope: i64, drop: i64) -> i64
    ensures { NumberIs 1 (counts_in slope drop) result }
{
    one_above(if slope == 0 { drop } else { slope })
}

// The products of a raster's rays with an edge vector, one more where the edge counts in. All are whole numbers: where the product is 0, one more is above 0, and
// where it is below 0 one more is not.
pub fn edge_function(r: Raster, edge: Vector) -> EdgeFunction
    requires { RasterBounded r × Bounded 800000000 edge }
    ensures { FunctionIs (seen_by r (vec_of edge)) result }
{
    let slope = dot_product(r.across, edge);
    let drop = dot_product(r.down, edge);
    EdgeFunction {
        start: dot_product(r.origin, edge) + counts_in(slope, drop),
        slope,
        drop,
    }
}
