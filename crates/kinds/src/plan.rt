// The plan by which a construction is made.
ghost use Rattle.kinds.specs.Ready.{Sized};

use crate::Kind;
use cells::Chart;

// What is made of a checked chart: values of `width` bytes, one every `stride` bytes, and at most `room` states. Rows are made from the reverse
// table's bytes, and are as wide as it has states; elsewhere it is not read.
#[derive(Clone, Copy)]
pub struct Plan<'a> {
    pub kind: Kind,
    pub chart: &'a Chart<'a>,
    pub reverse: &'a [u8],
    pub width: usize,
    pub stride: usize,
    pub room: usize,
    pub ghost sized: { Sized kind chart.now width stride room },
}
