// Which field lists are a machine's report: each of `machine`, `hours` and `turns` stands in it exactly once, in its range.
ghost use Rattle.std.specs.Prelude.{◌≡◌, Ok};
ghost use Rattle.fields.specs.Reading.{read_field_list};
ghost use Rattle.shown_bytes.specs.Ascii.{all_printable};
ghost use Rattle.reports.specs.Report.{machine_name, machine_text, number_text, is_machine, judged, told, Within, present, values_of, trailer_judged};
ghost use Rattle.reports.specs.Said.{fields_in, under, machine_told, MachineInside, combine};

pub use crate::said::text_at;
use crate::said::{Said, look_up};
use fields::read::{TextPlace, check_list};
use shown_bytes::shown::printable;
use tokens::number;

// How many characters a machine's name has at most.
const LONGEST: usize = 15;

// How many tenths of an hour the counter counts before it turns over.
const TURN: u32 = 65_536;

// The fields of a report.
#[derive(Clone, Copy, Debug, PartialEq, Eq)]
pub enum Named {
    Machine,
    Hours,
    Turns,
}

#[derive(Clone, Copy, Debug, PartialEq, Eq)]
pub enum Why {
    Missing,
    MoreThanOnce,
    OutOfRange,
}

// The machine's place in the list, and the tenths of an hour.
#[derive(Clone, Copy)]
pub struct Report {
    pub machine: TextPlace,
    pub tenths: u32,
}

// Why a list is no report: which of the fields fails first, and how; or the bytes are no field list.
#[derive(Clone, Copy, Debug, PartialEq, Eq)]
pub enum NoReport {
    Unclear(Named, Why),
    NoList,
}

// The bytes are no field list.
#[derive(Clone, Copy, Debug, PartialEq, Eq)]
pub struct NoList;

fn all_printable(text: &[u8]) -> bool
    ensures { result ≡ all_printable text.now }
{
    text.iter().all(|c| printable(*c))
}

#[tactic(auto, unfolding(crate::specs::Report::is_machine))]
fn is_machine(text: &[u8]) -> bool
    ensures { result ≡ is_machine text.now }
{
    !text.is_empty() && text.len() <= LONGEST && all_printable(text)
}

// The place of the value that the list has under a name, if it has one and only one.
fn only(list: &[u8], name: &[u8]) -> Result<TextPlace, Why>
    ensures result_value { machine_told list.now result ≡ under name.now (read_field_list list.now) Ok }
    ensures inside { MachineInside list.now result }
{
    let said = look_up(list, name);
    match said {
        Said::Nothing => Err(Why::Missing),
        Said::More => Err(Why::MoreThanOnce),
        Said::Once(place) => Ok(place),
    }
}

fn machine_said(list: &[u8]) -> Result<TextPlace, Why>
    ensures result_value { machine_told list.now result ≡ under machine_name (read_field_list list.now) machine_text }
    ensures machine_inside { MachineInside list.now result }
{
    let place = only(list, b"machine")?;
    if !is_machine(text_at(list, place)) {
        return Err(Why::OutOfRange);
    }
    Ok(place)
}

fn small_number(text: &[u8]) -> Result<u16, Why>
    ensures { result ≡ number_text text.now }
{
    let n = number(text).ok_or(Why::OutOfRange)?;
    u16::try_from(n).map_err(|_| Why::OutOfRange)
}

fn number_said(list: &[u8], name: &[u8]) -> Result<u16, Why>
    ensures { result ≡ under name.now (read_field_list list.now) number_text }
{
    let place = only(list, name)?;
    small_number(text_at(list, place))
}

// The first that fails is told. "(turns x 65,536 + hours) / 10", here in tenths.
fn combined(
    machine: Result<TextPlace, Why>,
    hours: Result<u16, Why>,
    turns: Result<u16, Why>,
) -> Result<Report, NoReport>
    ensures { result ≡ combine machine hours turns }
{
    let machine = machine.map_err(|why| NoReport::Unclear(Named::Machine, why))?;
    let hours = hours.map_err(|why| NoReport::Unclear(Named::Hours, why))?;
    let turns = turns.map_err(|why| NoReport::Unclear(Named::Turns, why))?;
    Ok(Report {
        machine,
        tenths: u32::from(turns) * TURN + u32::from(hours),
    })
}

// Is the list a report?
pub fn judge(list: &[u8]) -> Result<Report, NoReport>
    ensures result_value { told list.now result ≡ judged (read_field_list list.now) }
    ensures within { Within list.now result }
{
    check_list(list).map_err(|_| NoReport::NoList)?;
    let machine = machine_said(list);
    let hours = number_said(list, b"hours");
    let turns = number_said(list, b"turns");
    combined(machine, hours, turns)
}

fn has(list: &[u8], name: &[u8]) -> bool
    ensures { result ≡ present (values_of name.now (fields_in (read_field_list list.now))) }
{
    let said = look_up(list, name);
    match said {
        Said::Nothing => false,
        Said::Once(_) | Said::More => true,
    }
}

// Which of the fields the list of a trailer has first, where it should have none.
pub fn judge_trailer(list: &[u8]) -> Result<Option<Named>, NoList>
    ensures { result ≡ trailer_judged (read_field_list list.now) }
{
    check_list(list).map_err(|_| NoList)?;
    if has(list, b"machine") {
        return Ok(Some(Named::Machine));
    }
    if has(list, b"hours") {
        return Ok(Some(Named::Hours));
    }
    if has(list, b"turns") {
        return Ok(Some(Named::Turns));
    }
    Ok(None)
}
