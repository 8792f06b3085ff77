// What becomes of a call, and whether a refusal breaks the link.
ghost use Rattle.std.specs.Prelude.{◌≡◌};
ghost use Rattle.link_events.specs.Events.{side_of, role_of, done_event, refused_event, event_of, refusal_breaks, is_faulty};

use integers::answer::{DONE, Refusal};
use recording::Kind;

// Which end a call is one of.
#[derive(Clone, Copy)]
pub enum Side {
    Decoder,
    Encoder,
}

// What a call is to the link: a start, a read of the bytes that the other end wrote, or neither.
#[derive(Clone, Copy)]
pub enum Role {
    Start,
    Read,
    Other,
}

// What became of a call, where it is told: a start that was done, bytes left over by a read, and how many, a read cut short, or a refusal.
#[derive(Clone, Copy)]
pub enum Event {
    Started,
    LeftOver(u64),
    CutShort,
    Refused,
}

// A value for each kind, here and in `role_of`: no step is chosen that a closure could be.
pub fn side_of(kind: Kind) -> Side
    ensures { result ≡ side_of kind }
{
    match kind {
        Kind::DecoderStart
        | Kind::DecoderRead
        | Kind::DecoderBlock
        | Kind::DecoderOver
        | Kind::DecoderEnded
        | Kind::DecoderCollect
        | Kind::DecoderHold => Side::Decoder,
        Kind::EncoderStart
        | Kind::EncoderInsert
        | Kind::EncoderDelete
        | Kind::EncoderBlock
        | Kind::EncoderAcknowledge => Side::Encoder,
    }
}

pub fn role_of(kind: Kind) -> Role
    ensures { result ≡ role_of kind }
{
    match kind {
        Kind::DecoderStart | Kind::EncoderStart => Role::Start,
        Kind::DecoderRead | Kind::EncoderAcknowledge => Role::Read,
        Kind::DecoderBlock
        | Kind::DecoderOver
        | Kind::DecoderEnded
        | Kind::DecoderCollect
        | Kind::DecoderHold
        | Kind::EncoderInsert
        | Kind::EncoderDelete
        | Kind::EncoderBlock => Role::Other,
    }
}

fn done_event(role: Role, left: u64) -> Option<Event>
    ensures { result ≡ done_event role left }
{
    match role {
        Role::Start => Some(Event::Started),
        Role::Read => (0 < left).then_some(Event::LeftOver(left)),
        Role::Other => None,
    }
}

// `answer` is any number, as `event_of` promises of each, and so no `Refusal`: 4 and 15 are the number of none.
fn refused_event(role: Role, answer: u8) -> Event
    ensures { result ≡ refused_event role answer }
{
    match role {
        Role::Read if answer == Refusal::Truncated.number() => Event::CutShort,
        Role::Start | Role::Read | Role::Other => Event::Refused,
    }
}

// What became of a call with this answer that left so many of its bytes over.
pub fn event_of(role: Role, answer: u8, left: u64) -> Option<Event>
    ensures { result ≡ event_of role answer left }
{
    if answer == DONE {
        return done_event(role, left);
    }
    Some(refused_event(role, answer))
}

// Does a refusal of such a call break the link?
pub fn refusal_breaks(role: Role) -> bool
    ensures { result ≡ refusal_breaks role }
{
    match role {
        Role::Start => true,
        Role::Read => true,
        Role::Other => false,
    }
}

// Is a block that was answered with this number faulty? Its bytes are none that an encoder writes. The contract speaks of every number, those of no
// `Refusal` too.
pub fn is_faulty(answer: u8) -> bool
    ensures { result ≡ is_faulty answer }
{
    [
        Refusal::Truncated.number(),
        Refusal::TooLarge.number(),
        Refusal::NotAllowed.number(),
        Refusal::TooLong.number(),
        Refusal::BadPacking.number(),
        Refusal::Padded.number(),
    ]
    .contains(&answer)
}
