// Whether a room fits, and rows and places for it are lent.
#![tactic(auto)]

ghost use Rattle.std.specs.Prelude.{◌≡◌, ◌≤◌};
ghost use Rattle.paper.specs.Builders.{room_fits};

// Whether a room is from 1 to `most`, and rows and places for it are lent: values of w bytes, and one place more than states.
pub fn room_fits(most: usize, m: usize, w: usize, room: usize, table: usize, values: usize) -> bool
    requires { (most ≤ 4096) × (m ≤ 16) × (w ≤ 128) }
    ensures { result ≡ room_fits most m w room table values }
{
    (1..=most).contains(&room) && room * (1 + 2 * m) <= table && (room + 1) * w <= values
}
