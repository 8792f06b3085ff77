// Strings and names written at a place of the output. Each answers the place after what it wrote.
ghost use Rattle.std.specs.Prelude.{◌≡◌, ℕ, ◌+◌, ◌^◌, ◌≤◌, length};
ghost use Rattle.memory.specs.Bytes.{overlay};
ghost use Rattle.wire.specs.Text.{string_wire, value_limit};
ghost use Rattle.wire.specs.Name.{Name, name_wire};
ghost use Rattle.wire_writing.specs.Room.{plain_wire, RoomMade};
ghost use Rattle.wire_writing.specs.Names.{HasRoom};

use copying::copy::copy;
use integers::integer::WireInt;
use integers::number::TableIndex;
use packing::pack::{pack, packed_size};
use wire::text::H_BIT;

// Where a string's packed bytes go, up to an end that they must not pass, and whether their length stands before them.
#[derive(Drop)]
struct PackedRoom {
    start: usize,
    end: usize,
    counted: bool,
}

// Makes room for the packed bytes of `src`. A short string whose plain form has room is not counted: it is packed where it would stand plain, up to one byte
// before that ends, and its length is stored afterwards. Any other is counted: where it gets shorter, its length is written, and else its room has no place.
fn packed_room(src: &[u8], out: &mut [u8], at: usize) -> PackedRoom
    requires src_len_bound { length src.now ≤ value_limit }
    requires src_in_bounds { at + length (string_wire src.now) ≤ length out.old }
    ensures { RoomMade src.now at out.old out.new result }
{
    let n = src.len();
    if n < WireInt::ONES7 as usize {
        if n < out.len() - at {
            return PackedRoom {
                start: at + 1,
                end: at + n,
                counted: false,
            };
        }
    }
    let size = packed_size(src);
    if n <= size {
        return PackedRoom {
            start: at + 1,
            end: at,
            counted: true,
        };
    }
    let start = WireInt::new(size as u32).write(out, at, WireInt::PREFIX7, H_BIT as u32);
    PackedRoom {
        start,
        end: start + size,
        counted: true,
    }
}

// Writes the string `src` plain at the place `at`, and answers the place after it.
fn write_plain(src: &[u8], out: &mut [u8], at: usize) -> usize
    requires src_len_bound { length src.now ≤ value_limit }
    requires src_in_bounds { at + length (plain_wire src.now) ≤ length out.old }
    ensures value { result ≡ at + length (plain_wire src.now) }
    ensures out_after { out.new ≡ overlay out.old at (plain_wire src.now) }
{
    let n = WireInt::new(src.len() as u32);
    let next = n.write(out, at, WireInt::PREFIX7, 0);
    copy(src, out, next)
}

// Writes the string `src` at the place `at`, and answers the place after it. Packed bytes that have no room are written over. `pack` is called in one place, so
// that the compiler puts it there.
pub fn write_string(src: &[u8], out: &mut [u8], at: usize) -> usize
    requires src_len_bound { length src.now ≤ value_limit }
    requires src_in_bounds { at + length (string_wire src.now) ≤ length out.old }
    ensures value { result ≡ at + length (string_wire src.now) }
    ensures out_after { out.new ≡ overlay out.old at (string_wire src.now) }
{
    let room = packed_room(src, out, at);
    let start = room.start;
    let Some(next) = pack(src, out, start, room.end) else {
        return write_plain(src, out, at);
    };
    if room.counted {
        return next;
    }
    out[at] = H_BIT + (next - start) as u8;
    next
}

// A name as it is given to be written: by its index, or by its bytes.
pub trait NameToWrite: Copy {
    ghost says: { Self → Name };

    // Writes it, and answers the place after it.
    fn write_name(self, out: &mut [u8], at: usize, width: u32, top: u32) -> usize
        requires width_bound { (width ≤ 8) × (top + 2 ^ width ≤ 256) }
        requires name_bound { HasRoom (says self) }
        requires name_in_bounds { at + length (name_wire width top (says self)) ≤ length out.old }
        ensures value { result ≡ at + length (name_wire width top (says self)) }
        ensures out_after { out.new ≡ overlay out.old at (name_wire width top (says self)) };
}

impl NameToWrite for TableIndex {
    ghost says = { λ index. Name.indexed index.value };

    #[tactic(auto, unfolding(wire::specs::Name::name_wire))]
    fn write_name(self, out: &mut [u8], at: usize, width: u32, top: u32) -> usize {
        let n = WireInt::new(self.value);
        n.write(out, at, width, top)
    }
}

impl NameToWrite for &[u8] {
    ghost says = { λ name. Name.literal name.now };

    fn write_name(self, out: &mut [u8], at: usize, width: u32, top: u32) -> usize {
        let zero = WireInt::new(0);
        let next = zero.write(out, at, width, top);
        write_string(self, out, next)
    }
}
