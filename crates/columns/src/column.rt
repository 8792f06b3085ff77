// A column at the place `at`, with `count` numbers of one width.
ghost use Rattle.std.specs.Prelude.{◌≡◌, ℕ, ◌+◌, ◌*◌, ◌-◌, ◌≤◌, ◌<◌, length, ltb};
ghost use Rattle.memory.specs.Choice.{pick};
ghost use Rattle.memory.specs.Bytes.{moved, overlay};
ghost use Rattle.columns.specs.Columns.{column_opened, column_closed, changed, MakesBytesOf};

use memory::copy::{move_down, move_up};
use memory::number::{put_bytes, put_u16, u16_at};

// A number of two bytes is kept modulo this.
const NUMBERS: u32 = 65_536;

// Three of one line each: std's `to_le_bytes` is a method of each type and of no trait, so that one for all would take bytes, which each caller would make, and
// would have to prove of what number.
pub fn open_u8(m: &mut [u8], at: usize, place: usize, count: usize, x: u8)
    requires { (place ≤ count) × (count ≤ 1024) × (at ≤ 65536) × (at + (count + 1) ≤ length m.old) }
    ensures { m.new ≡ column_opened 1 m.old at place count x }
{
    open(m, at, place, count, x.to_le_bytes());
}

pub fn open_u16(m: &mut [u8], at: usize, place: usize, count: usize, x: u16)
    requires { (place ≤ count) × (count ≤ 1024) × (at ≤ 65536) × (at + 2 * (count + 1) ≤ length m.old) }
    ensures { m.new ≡ column_opened 2 m.old at place count x }
{
    open(m, at, place, count, x.to_le_bytes());
}

pub fn open_u32(m: &mut [u8], at: usize, place: usize, count: usize, x: u32)
    requires { (place ≤ count) × (count ≤ 1024) × (at ≤ 65536) × (at + 4 * (count + 1) ≤ length m.old) }
    ensures { m.new ≡ column_opened 4 m.old at place count x }
{
    open(m, at, place, count, x.to_le_bytes());
}

// Puts a number of `W` bytes in at `place`: the numbers from there on move up by one.
fn open<const W: usize>(m: &mut [u8], at: usize, place: usize, count: usize, bytes: [u8; W])
    requires { (place ≤ count) × (count ≤ 1024) × (W ≤ 8) × (at ≤ 65536) × (at + W * (count + 1) ≤ length m.old) }
    ensures { m.new ≡ overlay (moved m.old (at + W * (place + 1)) (at + W * place) (W * (count - place))) (at + W * place) bytes.entry }
{
    let from = at + W * place;
    move_up(m, from + W, from, W * (count - place));
    put_bytes(m, from, bytes);
}

// Takes the number at `place` out.
pub fn close(m: &mut [u8], at: usize, width: usize, place: usize, count: usize)
    requires { (place < count) × (count ≤ 1024) × (width ≤ 8) × (at ≤ 65536) × (at + width * count ≤ length m.old) }
    ensures { m.new ≡ column_closed width m.old at place count }
{
    let to = at + width * place;
    move_down(m, to, to + width, width * (count - (place + 1)));
}

// Adds `by` to each of the `n` numbers of two bytes from the place `at` on, modulo 65,536: to lower them, what is left of 65,536 is added.
pub fn shift(m: &mut [u8], at: usize, n: usize, by: u32)
    requires { (n ≤ 1024) × (by ≤ 65536) × (at ≤ 65536) × (at + 2 * n ≤ length m.old) }
    ensures { m.new ≡ changed (λ x. x + by) 2 n m.old at }
{
    change(m, at, n, |x| ((u32::from(x) + by) % NUMBERS) as u16);
}

// Lowers each of the `n` numbers of two bytes from the place `at` on by one where it is above `limit`.
pub fn lower(m: &mut [u8], at: usize, n: usize, limit: u16)
    requires { (n ≤ 1024) × (at ≤ 65536) × (at + 2 * n ≤ length m.old) }
    ensures { m.new ≡ changed (λ x. pick (ltb limit x) (x - 1) x) 2 n m.old at }
{
    change(m, at, n, |x| if limit < x { x - 1 } else { x });
}

// Puts what `f` makes of it in the place of each of the `n` numbers of two bytes from the place `at` on.
fn change<F: Fn(u16) -> u16>(m: &mut [u8], at: usize, n: usize, f: F)
    requires fits { (n ≤ 1024) × (at ≤ 65536) × (at + 2 * n ≤ length m.old) }
    requires callable { (x : ℕ) → x < 65536 → F.pre f x }
    ensures { (g : ℕ → ℕ) → MakesBytesOf g (F.post f) → m.new ≡ changed g 2 n m.old at }
{
    for i in 0..n {
        let x = u16_at(m, at + 2 * i);
        put_u16(m, at + 2 * i, f(x));
    }
}
