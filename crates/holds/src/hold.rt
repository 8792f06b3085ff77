// What holds an entry under deletion: the unfinished parts that its delete names, counted, and the lowest stream having one.
ghost use Rattle.std.specs.Prelude.{◌≡◌, ◌+◌, ◌*◌, ◌≤◌, length};
ghost use Rattle.memory.specs.Numbers.{number};
ghost use Rattle.marks.specs.Marks.{is_set, count_from, lowest_from};
ghost use Rattle.model.specs.Parts.{open_below, lowest_open, streams};
ghost use Rattle.state.specs.Front.{marks_of};
ghost use Rattle.state.specs.DecoderState.{streams_at, list_at, delete_at};
ghost use Rattle.holds.specs.Hold.{GoodDelete, Listed, Named, listed_count, listed_lowest, named_marked, lowest_case, lowest_told};

use integers::number::StreamNumber;
use marks::count::{count_below, lowest_below};
use marks::mark::is_set;
use state::kept::{
    horizon_at, listed_at, listed_count_at, listed_place, nontrailer_list, trailer_list,
};
use state::layout::{NONTRAILER_MARKS, TRAILER_MARKS};

// What is told where no stream has a named part that is unfinished.
const NO_STREAM: u32 = 4_096;

// What a hold enquiry tells of the lowest stream.
pub fn told(lowest: Option<StreamNumber>) -> u32
    ensures { result ≡ lowest_told lowest }
{
    match lowest {
        Some(stream) => stream.value as u32,
        None => NO_STREAM,
    }
}

// Stream `i` of those from the place `at` on.
fn stream_at(m: &[u8], at: usize, i: usize) -> StreamNumber
    requires { (at + 2 * i + 2 ≤ length m.now) × (number 2 m.now (at + 2 * i) ≤ 4095) }
    ensures { result ≡ record { value = number 2 m.now (at + 2 * i) } }
{
    StreamNumber::new(listed_at(m, at, i))
}

// How many of the `k` streams from the place `at` on are marked.
fn listed_count(m: &[u8], marks: usize, k: usize, at: usize) -> usize
    requires { Listed m.now marks k at }
    ensures { (result ≡ listed_count (is_set m.now marks) (streams_at k m.now at)) × (result ≤ 16) }
{
    let mut count: usize = 0;
    for i in 0..k {
        if is_set(m, marks, stream_at(m, at, i)) {
            count += 1;
        }
    }
    count
}

// The first of the `k` streams from the place `at` on that is marked.
fn listed_lowest(m: &[u8], marks: usize, k: usize, at: usize) -> Option<StreamNumber>
    requires { Listed m.now marks k at }
    ensures { result ≡ lowest_case (listed_lowest (is_set m.now marks) (streams_at k m.now at)) }
{
    for i in 0..k {
        let stream = stream_at(m, at, i);
        if is_set(m, marks, stream) {
            return Some(stream);
        }
    }
    None
}

// How many of the streams that the list at the place `at` names are marked: those below the horizon by words, then the listed ones.
fn named_count(m: &[u8], marks: usize, at: usize) -> usize
    requires { Named m.now marks at }
    ensures { result ≡ count_from (named_marked (is_set m.now marks) (list_at m.now at)) 0 streams }
{
    let horizon = horizon_at(m, at) as usize;
    let count = listed_count_at(m, at) as usize;
    count_below(m, marks, horizon) + listed_count(m, marks, count, listed_place(at))
}

// The lowest of them, since the listed streams stand above the horizon.
fn named_lowest(m: &[u8], marks: usize, at: usize) -> Option<StreamNumber>
    requires { Named m.now marks at }
    ensures { result ≡ lowest_case (lowest_from (named_marked (is_set m.now marks) (list_at m.now at)) 0 streams) }
{
    let horizon = horizon_at(m, at) as usize;
    let below = lowest_below(m, marks, horizon);
    if below < horizon {
        return Some(StreamNumber::new(below as u16));
    }
    let count = listed_count_at(m, at) as usize;
    listed_lowest(m, marks, count, listed_place(at))
}

// How many parts that delete `k` names are unfinished.
pub fn hold_count(m: &[u8], k: usize) -> usize
    requires { GoodDelete m.now k }
    ensures { result ≡ open_below (marks_of m.now) (delete_at m.now k) streams }
{
    named_count(m, NONTRAILER_MARKS, nontrailer_list(k))
        + named_count(m, TRAILER_MARKS, trailer_list(k))
}

// The lowest stream having one, if there is one.
pub fn hold_lowest(m: &[u8], k: usize) -> Option<StreamNumber>
    requires { GoodDelete m.now k }
    ensures { result ≡ lowest_case (lowest_open (marks_of m.now) (delete_at m.now k) 0 streams) }
{
    let nontrailer = named_lowest(m, NONTRAILER_MARKS, nontrailer_list(k));
    let trailer = named_lowest(m, TRAILER_MARKS, trailer_list(k));
    if told(nontrailer) < told(trailer) {
        return nontrailer;
    }
    trailer
}
