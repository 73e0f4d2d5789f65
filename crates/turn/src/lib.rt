// What every layer above reads: points, turns, the angular order and areas, all exact; the limits; what a check answers.
#![tactic(auto)]

ghost use Rattle.std.specs.Prelude.{◌≡◌, ◌+◌, ◌*◌, ◌<◌, ◌≤◌, pos, nat_abs, ◌-ℤ◌, length};
ghost use Rattle.turn.specs.Limits.{max_links, max_coordinate};
ghost use Rattle.turn.specs.Points.{before, differ, outside, off_grid, Coord, OnGrid, Short, from_to, cross, dot, turn, clockwise, product_bound};
ghost use Rattle.turn.specs.Points.{span, Grid};
ghost use Rattle.turn.specs.Angle.{same_direction};
ghost use Rattle.turn.specs.Area.{wedge, area, points_of, wedge_bound};
ghost use Rattle.turn.specs.Promises.{BeforeSays, DifferSays, OutsideSays, OffGridSays, WideSays, BetweenSays, CrossProductSays, TurnOfSays};
ghost use Rattle.turn.specs.Promises.{ClockwiseSays, SameDirectionSays, WedgeSays, DoubledAreaSays, NumberSays, NumberedSays, AbsoluteSays};

// The most links of a graph, and the most points of a contour table.
pub const MAX_LINKS: usize = 4096;

// Coordinates lie from -MAX_COORDINATE to MAX_COORDINATE.
pub const MAX_COORDINATE: i32 = 524288;

// Why something is refused, by document 01's numbers.
#[derive(Clone, Copy, Debug, PartialEq, Eq)]
pub enum Reason {
    TooManyLinks = 1,
    WrongLengths = 2,
    WrongLink = 3,
    LinksOutOfOrder = 4,
    WrongNodes = 5,
    EndsApart = 6,
    EndsAlike = 7,
    NoNextLink = 8,
    WrongLastLink = 9,
    WrongTable = 10,
    WrongAnchor = 11,
    NoParent = 12,
    WrongFile = 13,
}

impl Reason {
    // Document 01's number.
    pub fn number(self) -> u32
        ensures { NumberSays self result }
    {
        self as u32
    }
}

// A refusal: why, and document 01's place.
#[derive(Clone, Copy, Debug, PartialEq, Eq)]
pub struct Refusal {
    pub reason: Reason,
    pub place: usize,
}

// A refusal by number, as it is printed. Whatever takes one takes any number.
#[derive(Clone, Copy, Debug, PartialEq, Eq)]
pub struct NumberedRefusal {
    pub number: u32,
    pub place: usize,
}

// An answer whose refusal has document 01's number in place of its reason.
pub fn numbered<T: Copy>(answer: Result<T, Refusal>) -> Result<T, NumberedRefusal>
    ensures { NumberedSays answer result }
{
    match answer {
        Ok(value) => Ok(value),
        Err(refusal) => Err(NumberedRefusal {
            number: refusal.reason.number(),
            place: refusal.place,
        }),
    }
}

// In order by x, then by y.
#[derive(Clone, Copy, Debug, PartialEq, Eq, PartialOrd, Ord)]
pub struct Point {
    pub x: i32,
    pub y: i32,
}

// The way from one point to another.
#[derive(Clone, Copy, Debug, PartialEq, Eq)]
pub struct Vector {
    pub x: i64,
    pub y: i64,
}

// Whether p is strictly before q: by x, then by y.
pub fn before(p: Point, q: Point) -> bool
    ensures { BeforeSays p q result }
{
    p < q
}

// Whether p and q are different points.
pub fn differ(p: Point, q: Point) -> bool
    ensures { DifferSays p q result }
{
    p != q
}

// Whether a coordinate is out of bounds.
pub fn outside(z: i32) -> bool
    ensures { OutsideSays z result }
{
    (z < -MAX_COORDINATE) | (MAX_COORDINATE < z)
}

// Whether a point is out of bounds.
pub fn off_grid(p: Point) -> bool
    ensures { OffGridSays p result }
{
    outside(p.x) | outside(p.y)
}

// A 32-bit number as an index.
// By hand: as in Rust, no `From` leads from u32 to usize.
pub fn wide(x: u32) -> usize
    ensures { WideSays x result }
{
    x as usize
}

// The difference of two coordinates.
fn difference(a: i32, b: i32) -> i64
    requires { (Coord a) × (Coord b) }
    ensures { (result ≡ a -ℤ b) × (nat_abs result ≤ span) }
{
    (a - b) as i64
}

// The vector from p to q.
pub fn between(p: Point, q: Point) -> Vector
    requires { (OnGrid p) × (OnGrid q) }
    ensures { BetweenSays p q result }
{
    Vector {
        x: difference(q.x, p.x),
        y: difference(q.y, p.y),
    }
}

// The cross product of two vectors between points.
pub fn cross_product(u: Vector, v: Vector) -> i64
    requires { (Short u) × (Short v) }
    ensures { CrossProductSays u v result }
{
    u.x * v.y - u.y * v.x
}

fn dot_product(u: Vector, v: Vector) -> i64
    requires { (Short u) × (Short v) }
    ensures { (result ≡ dot u v) × (nat_abs result ≤ product_bound) }
{
    u.x * v.x + u.y * v.y
}

// Above 0 where a, b, c turn counterclockwise, below 0 where they turn clockwise.
pub fn turn_of(a: Point, b: Point, c: Point) -> i64
    requires { (OnGrid a) × (OnGrid b) × (OnGrid c) }
    ensures { TurnOfSays a b c result }
{
    cross_product(between(a, b), between(a, c))
}

// Whether a, b, c turn strictly clockwise.
pub fn clockwise(a: Point, b: Point, c: Point) -> bool
    requires { (OnGrid a) × (OnGrid b) × (OnGrid c) }
    ensures { ClockwiseSays a b c result }
{
    turn_of(a, b, c) < 0
}

// Whether u and v have one direction.
pub fn same_direction(u: Vector, v: Vector) -> bool
    requires { (Short u) × (Short v) }
    ensures { SameDirectionSays u v result }
{
    (cross_product(u, v) == 0) & (0 < dot_product(u, v))
}

// x y' - y x' of two points.
pub fn wedge(p: Point, q: Point) -> i64
    requires { (OnGrid p) × (OnGrid q) }
    ensures { WedgeSays p q result }
{
    p.x as i64 * q.y as i64 - p.y as i64 * q.x as i64
}

// The signed doubled area of a closed run of points, x and y in turn.
pub fn doubled_area(points: &[i32]) -> i64
    requires { (length points.now ≤ 2 * max_links) × (Grid points.now) }
    ensures { DoubledAreaSays points.now result }
{
    if points.len() < 2 {
        return 0;
    }
    let home = Point {
        x: points[0],
        y: points[1],
    };
    let mut p = home;
    let mut sum: i64 = 0;
    for k in 1..points.len() / 2 {
        let q = Point {
            x: points[k * 2],
            y: points[k * 2 + 1],
        };
        sum += wedge(p, q);
        p = q;
    }
    sum + wedge(p, home)
}

// The absolute value, at every i64.
pub fn absolute(x: i64) -> u64
    ensures { AbsoluteSays x result }
{
    x.unsigned_abs()
}
