// Runs the proved functions of `turn` and `size` at zero and at both extremes, a line for each input.
#![tactic(auto)]

ghost use Rattle.std.specs.Prelude.{◌≤◌};
ghost use Rattle.turn.specs.Points.{Coord, Short};

use std::io::Write;
use std::rt::Stdout;
use turn::{Point, Vector};

// What cannot be written is left out: no line depends on it.
fn put(mut out: Stdout, bytes: &[u8]) {
    let _ = out.write_all(bytes);
}

fn say(mut out: Stdout, n: u64) {
    let _ = write!(out, " {n}");
}

// The absolute value and the minimum given; whether it is kept at minimum 0, 1, this one, 2^63 - 1, 2^63 and 2^64 - 1, and with 2 points.
fn size(out: Stdout, area: i64, minimum: u64) {
    put(out, b"\nsize");
    say(out, turn::absolute(area));
    say(out, minimum);
    for (points, least) in [
        (usize::MAX, 0),
        (3, 1),
        (3, minimum),
        (3, i64::MAX as u64),
        (3, 1 << 63),
        (3, u64::MAX),
        (2, 0),
    ] {
        say(out, size::is_kept(points, area, least) as u64);
    }
}

// Whether p is before q, q before p, and whether they differ.
fn order(out: Stdout, px: i32, py: i32, qx: i32, qy: i32) {
    let p = Point { x: px, y: py };
    let q = Point { x: qx, y: qy };
    put(out, b"\norder");
    say(out, turn::before(p, q) as u64);
    say(out, turn::before(q, p) as u64);
    say(out, turn::differ(p, q) as u64);
}

// Whether a coordinate is outside, and points that have it.
fn bound(out: Stdout, z: i32) {
    put(out, b"\nbound");
    say(out, turn::outside(z) as u64);
    say(out, turn::off_grid(Point { x: z, y: 0 }) as u64);
    say(out, turn::off_grid(Point { x: 0, y: z }) as u64);
}

// The size of the turn of a, b, c, and whether it is strictly clockwise; then whether that of a, c, b is.
fn turning(out: Stdout, ax: i32, ay: i32, bx: i32, by: i32, cx: i32, cy: i32)
    requires { (Coord ax) × (Coord ay) × (Coord bx) × (Coord by) × (Coord cx) × (Coord cy) }
{
    let a = Point { x: ax, y: ay };
    let b = Point { x: bx, y: by };
    let c = Point { x: cx, y: cy };
    put(out, b"\nturn");
    say(out, turn::absolute(turn::turn_of(a, b, c)));
    say(out, turn::clockwise(a, b, c) as u64);
    say(out, turn::clockwise(a, c, b) as u64);
}

// The size of the doubled area of the first numbers of a box's points, and whether it is below 0: it is where the west is east of the east.
fn area(out: Stdout, west: i32, south: i32, east: i32, north: i32, count: usize)
    requires { (Coord west) × (Coord south) × (Coord east) × (Coord north) × (count ≤ 8) }
{
    let points = [west, south, east, south, east, north, west, north];
    let doubled = turn::doubled_area(&points[..count]);
    put(out, b"\narea");
    say(out, turn::absolute(doubled));
    say(out, (doubled < 0) as u64);
}

// The size of the cross product of u and v, whether it is below 0, and whether they have one direction.
fn product(out: Stdout, u: Vector, v: Vector)
    requires { (Short u) × (Short v) }
{
    let c = turn::cross_product(u, v);
    put(out, b"\nproduct");
    say(out, turn::absolute(c));
    say(out, (c < 0) as u64);
    say(out, turn::same_direction(u, v) as u64);
}

// Areas at 0, odd, about a minimum, and at both ends of 64 bits; and a minimum whose doubling would wrap to the area.
fn sizes(out: Stdout) {
    for (area, minimum) in [
        (0, 0),
        (1, 1),
        (-1, 1),
        (2, 1),
        (-3, 2),
        (33, 16),
        (-33, 17),
        (i64::MAX, 4611686018427387903),
        (i64::MAX, 4611686018427387904),
        (-i64::MAX, 4611686018427387904),
        (i64::MIN, 4611686018427387904),
        (i64::MIN, 4611686018427387905),
        (32, 9223372036854775824),
    ] {
        size(out, area, minimum);
    }
}

// Points and coordinates about 0, at the bounds of the grid, and at both ends of 32 bits.
fn places(out: Stdout) {
    for (px, py, qx, qy) in [
        (0, 0, 0, 0),
        (0, 0, 0, 1),
        (0, 5, 1, -5),
        (i32::MIN, i32::MAX, i32::MAX, i32::MIN),
        (i32::MIN, i32::MAX, i32::MIN, i32::MAX),
    ] {
        order(out, px, py, qx, qy);
    }
    for z in [i32::MIN, -524289, -524288, 0, 524288, 524289, i32::MAX] {
        bound(out, z);
    }
}

// Turns either way, straight on, of points that are one, and at the corners of the grid.
fn turns(out: Stdout) {
    for (ax, ay, bx, by, cx, cy) in [
        (0, 0, 1, 0, 1, 1),
        (0, 0, 1, 1, 2, 2),
        (0, 0, 0, 0, 5, 7),
        (524288, 524288, 524288, 524288, 524288, 524288),
        (-524288, -524288, 524288, -524288, 524288, 524288),
        (-524288, -524288, 524288, 524288, 524287, 524287),
        (-524288, -524288, 524288, 524288, 524287, 524288),
        (-524288, -524288, 524288, 524288, 524288, 524287),
    ] {
        turning(out, ax, ay, bx, by, cx, cy);
    }
}

// Point lists that are cut; and boxes of either sense, as wide as the grid, and of no height.
fn areas(out: Stdout) {
    for count in [0, 1, 2, 4, 6, 7] {
        area(out, 0, 0, 4, 4, count);
    }
    for (west, south, east, north) in [
        (4, 0, 0, 4),
        (-524288, -524288, 524288, 524288),
        (524288, -524288, -524288, 524288),
        (-524288, 524288, 524288, 524288),
    ] {
        area(out, west, south, east, north, 8);
    }
}

// Vectors that no link has: of length 0, and as long as the grid is wide.
fn vectors(out: Stdout) {
    let zero = Vector { x: 0, y: 0 };
    let up = Vector {
        x: 1048576,
        y: 1048576,
    };
    let down = Vector {
        x: 1048576,
        y: -1048576,
    };
    for (u, v) in [(zero, zero), (zero, up), (up, zero), (down, up), (up, down)] {
        product(out, u, v);
    }
}

fn main(rt: HostRuntime) {
    let out = rt.stdout();
    put(out, b"1 is yes, 0 is no");
    sizes(out);
    places(out);
    turns(out);
    areas(out);
    vectors(out);
    put(out, b"\n");
}
