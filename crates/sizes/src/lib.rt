// How many bytes things take on the wire, for the room that a call needs before it writes.
#![tactic(auto)]

ghost use Rattle.std.specs.Prelude.{◌≡◌, ◌+◌, ◌-◌, ◌^◌, ◌≤◌};
ghost use Rattle.sizes.specs.Sizes.{groups_size, int_size, string_size, insert_index_size, insert_text_size, delete_size, literal_index_size, literal_text_size};

use integers::integer::WireInt;
use integers::number::TableIndex;

// The first values that take more than one group, more than two, and more than three.
const TWO_GROUPS: u32 = WireInt::GROUP;

const THREE_GROUPS: u32 = WireInt::GROUP * TWO_GROUPS;

const FOUR_GROUPS: u32 = WireInt::GROUP * THREE_GROUPS;

fn groups_size(v: u32) -> usize
    ensures { (result ≡ groups_size v) × (result ≤ 4) }
{
    if v < TWO_GROUPS {
        return 1;
    }
    if v < THREE_GROUPS {
        return 2;
    }
    if v < FOUR_GROUPS {
        return 3;
    }
    4
}

// An integer whose prefix of `k` bits is all ones at `ones`.
fn int_size(v: u32, k: u32, ones: u32) -> usize
    requires { (ones ≡ 2 ^ k - 1) × (ones ≤ 255) }
    ensures { (result ≡ int_size k v) × (result ≤ 5) }
{
    if v < ones {
        return 1;
    }
    1 + groups_size(v - ones)
}

pub fn indexed_size(index: TableIndex) -> usize
    ensures { (result ≡ int_size 7 index.value) × (result ≤ 5) }
{
    int_size(index.value, WireInt::PREFIX7, WireInt::ONES7)
}

pub fn acknowledge_size(index: TableIndex) -> usize
    ensures { (result ≡ int_size 6 index.value) × (result ≤ 5) }
{
    int_size(index.value, WireInt::PREFIX6, WireInt::ONES6)
}

fn string_size(n: usize) -> usize
    requires { n ≤ 2047 }
    ensures { (result ≡ string_size n) × (result ≤ 2052) }
{
    int_size(n as u32, WireInt::PREFIX7, WireInt::ONES7) + n
}

pub fn insert_index_size(index: TableIndex, name: TableIndex, value: usize) -> usize
    requires { value ≤ 2047 }
    ensures { (result ≡ insert_index_size index.value name.value value) × (result ≤ 2062) }
{
    int_size(index.value, WireInt::PREFIX7, WireInt::ONES7)
        + (int_size(name.value, WireInt::PREFIX8, WireInt::ONES8) + string_size(value))
}

pub fn insert_text_size(index: TableIndex, name: usize, value: usize) -> usize
    requires { (name ≤ 255) × (value ≤ 2047) }
    ensures { (result ≡ insert_text_size index.value name value) × (result ≤ 4110) }
{
    int_size(index.value, WireInt::PREFIX7, WireInt::ONES7)
        + (1 + string_size(name) + string_size(value))
}

// A list of no streams: its horizon, and the count 0.
fn list_size(horizon: u32) -> usize
    ensures { (result ≡ int_size 8 horizon + 1) × (result ≤ 6) }
{
    int_size(horizon, WireInt::PREFIX8, WireInt::ONES8) + 1
}

pub fn delete_size(index: TableIndex, nontrailer: u32, trailer: u32) -> usize
    ensures { (result ≡ delete_size index.value nontrailer trailer) × (result ≤ 17) }
{
    int_size(index.value, WireInt::PREFIX6, WireInt::ONES6)
        + (list_size(nontrailer) + list_size(trailer))
}

pub fn literal_index_size(name: TableIndex, value: usize) -> usize
    requires { value ≤ 2047 }
    ensures { (result ≡ literal_index_size name.value value) × (result ≤ 2057) }
{
    int_size(name.value, WireInt::PREFIX6, WireInt::ONES6) + string_size(value)
}

pub fn literal_text_size(name: usize, value: usize) -> usize
    requires { (name ≤ 255) × (value ≤ 2047) }
    ensures { (result ≡ literal_text_size name value) × (result ≤ 4105) }
{
    1 + string_size(name) + string_size(value)
}
