// Inner: a chart whose sizes are in range and whose bytes are all there, and what stands in it. Some methods have a `requires`, so only proved code may call them.
#![tactic(auto)]

ghost use Rattle.std.specs.Prelude.{◌≡◌, ◌+◌, ◌*◌, ◌<◌, ◌≤◌, length, get_or, take, drop};
ghost use Rattle.paper.specs.Chart.{k_of, n_of, letters, join, prod, entry, start_vec, end_vec};
ghost use Rattle.cells.specs.Shaped.{Shaped, Read, Ranged, Part, row_of};

use replies::Shape;
use std::marker::Model;

// The bytes of a chart, with its sizes and where its parts begin. A contract sees the bytes.
#[derive(Drop)]
pub struct Chart<'a> {
    bytes: &'a [u8],
    shape: Shape,
}

impl<'a> Model for Chart<'a> {
    ghost use Rattle.std.specs.Prelude.{List, ℕ};
    ghost use Rattle.cells.specs.Shaped.{Shaped};

    ghost Value = { List ℕ };

    ghost view = { λ c. c.bytes.now };

    ghost invariant = { λ c. Shaped c.bytes.now c.shape };
}

impl<'a> Chart<'a> {
    pub fn new(bytes: &'a [u8], shape: Shape) -> Self
        requires { Shaped bytes.now shape }
        ensures { result ≡ bytes.now }
    {
        Chart { bytes, shape }
    }

    // The same chart, as a value of the caller's own. A loop that writes does not read sizes and offsets of it anew at each turn.
    pub fn copy(&self) -> Self
        ensures { result ≡ self.now }
    {
        Chart {
            bytes: self.bytes,
            shape: self.shape,
        }
    }

    // Its sizes, and where its parts begin.
    pub fn shape(&self) -> Shape
        ensures { Shaped self.now result }
    {
        self.shape
    }

    // How many grades there are.
    pub fn k(&self) -> usize
        ensures { Ranged 2 16 (k_of self.now) result }
    {
        self.shape.k
    }

    // How many states it has: a vector has as many grades.
    pub fn n(&self) -> usize
        ensures { Ranged 1 24 (n_of self.now) result }
    {
        self.shape.n
    }

    // How many letters its words use.
    pub fn letters(&self) -> usize
        ensures { Ranged 1 16 (letters self.now) result }
    {
        self.shape.letters
    }

    // a join b.
    pub fn join(&self, a: u8, b: u8) -> u8
        requires { (a < k_of self.now) × (b < k_of self.now) }
        ensures { Read (join self.now a b) (k_of self.now) result }
    {
        let shape = &self.shape;
        cell(
            self.bytes,
            shape.join,
            usize::from(a),
            shape.k,
            usize::from(b),
        )
    }

    // a times b: the sides are not exchanged.
    pub fn prod(&self, a: u8, b: u8) -> u8
        requires { (a < k_of self.now) × (b < k_of self.now) }
        ensures { Read (prod self.now a b) (k_of self.now) result }
    {
        let shape = &self.shape;
        cell(
            self.bytes,
            shape.prod,
            usize::from(a),
            shape.k,
            usize::from(b),
        )
    }

    // The entry at p, q of letter x's matrix.
    pub fn entry(&self, x: usize, p: usize, q: usize) -> u8
        requires { (x < letters self.now) × (p < n_of self.now) × (q < n_of self.now) }
        ensures { Read (entry self.now x p q) (k_of self.now) result }
    {
        let shape = &self.shape;
        cell(self.bytes, shape.matrix, x * shape.n + p, shape.n, q)
    }

    // The start vector, as the part of the chart that holds it.
    pub fn start(&self) -> &[u8]
        ensures { Part self.now (start_vec self.now) result.now }
    {
        part(self.bytes, self.shape.start, self.shape.n)
    }

    // The end vector.
    pub fn end(&self) -> &[u8]
        ensures { Part self.now (end_vec self.now) result.now }
    {
        part(self.bytes, self.shape.end, self.shape.n)
    }

    // Row p of letter x's matrix.
    pub fn row(&self, x: usize, p: usize) -> &[u8]
        requires { (x < letters self.now) × (p < n_of self.now) }
        ensures { Part self.now (row_of self.now x p) result.now }
    {
        let shape = &self.shape;
        part(
            self.bytes,
            shape.matrix + (x * shape.n + p) * shape.n,
            shape.n,
        )
    }
}

// The methods above are a line each over these two, and say by name what stands there.

// The n grades from a place on.
fn part(bytes: &[u8], from: usize, n: usize) -> &[u8]
    requires { from + n ≤ length bytes.now }
    ensures { result.now ≡ take n (drop from bytes.now) }
{
    &bytes[from..from + n]
}

// The byte at a row and a column of a part that is laid out in rows of one width.
pub fn cell(bytes: &[u8], from: usize, row: usize, width: usize, col: usize) -> u8
    requires { from + (row * width + col) < length bytes.now }
    ensures { result ≡ get_or bytes.now (from + (row * width + col)) 0 }
{
    let at = from + (row * width + col);
    bytes[at]
}
