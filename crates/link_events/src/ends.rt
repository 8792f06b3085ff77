// The tables of both ends, and the line at which one broke.
ghost use Rattle.std.specs.Prelude.{◌≡◌};
ghost use Rattle.link_events.specs.Ends.{fresh, started_anew, broken_at, after_event, after_call, after_bad_line, after_block, broken_line};

use crate::events::{Event, Role, Side, is_faulty, refusal_breaks};

// The number of an end's table, 0 before its first start that is done, and the line at which the link broke first at this end since, if it did.
#[derive(Clone, Copy)]
pub struct End {
    pub table: u64,
    pub broken: Option<u64>,
}

#[derive(Clone, Copy)]
pub struct Ends {
    pub decoder: End,
    pub encoder: End,
}

impl End {
    pub fn new() -> End
        ensures { result ≡ fresh }
    {
        End {
            table: 0,
            broken: None,
        }
    }

    // A start that is done: the next table, and a link that is whole.
    fn started(self) -> End
        ensures { result ≡ started_anew self }
    {
        End {
            table: self.table.saturating_add(1),
            broken: None,
        }
    }

    // The link broke here, if it was whole. Lines are counted from 1: at line 0 nothing breaks.
    fn broken_at(self, line: u64) -> End
        ensures { result ≡ broken_at self line }
    {
        End {
            broken: self.broken.or((line != 0).then_some(line)),
            ..self
        }
    }

    fn after_event(self, role: Role, event: Option<Event>, line: u64) -> End
        ensures { result ≡ after_event self role event line }
    {
        match event {
            None | Some(Event::CutShort) => self,
            Some(Event::Started) => self.started(),
            Some(Event::LeftOver(_)) => self.broken_at(line),
            Some(Event::Refused) => {
                if refusal_breaks(role) {
                    return self.broken_at(line);
                }
                self
            }
        }
    }
}

impl Ends {
    pub fn new() -> Ends {
        Ends {
            decoder: End::new(),
            encoder: End::new(),
        }
    }

    // Both ends after a call of one of them, at this line. The side chooses a field, and the step is the same: a closure would only hide it.
    pub fn after_call(self, side: Side, role: Role, event: Option<Event>, line: u64) -> Ends
        ensures { result ≡ after_call self side role event line }
    {
        match side {
            Side::Decoder => Ends {
                decoder: self.decoder.after_event(role, event, line),
                ..self
            },
            Side::Encoder => Ends {
                encoder: self.encoder.after_event(role, event, line),
                ..self
            },
        }
    }

    // Both ends after a bad line.
    pub fn after_bad_line(self, line: u64) -> Ends
        ensures { result ≡ after_bad_line self line }
    {
        Ends {
            decoder: self.decoder.broken_at(line),
            ..self
        }
    }

    // Both ends after a block that was offered to the decoder and answered with this number: a faulty one breaks the link as a bad line does.
    pub fn after_block(self, answer: u8, line: u64) -> Ends
        ensures { result ≡ after_block self answer line }
    {
        if !is_faulty(answer) {
            return self;
        }
        self.after_bad_line(line)
    }

    // The line at which the link broke, if it did.
    pub fn broken_line(self) -> Option<u64>
        ensures { result ≡ broken_line self.decoder.broken self.encoder.broken }
    {
        match (self.decoder.broken, self.encoder.broken) {
            (Some(a), Some(b)) => Some(a.min(b)),
            (a, b) => a.or(b),
        }
    }
}
