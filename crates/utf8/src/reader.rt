// The reader: a method matches its own state with the byte and moves in place to the next state.
ghost use Rattle.std.specs.Prelude.{◌≡◌};
ghost use Rattle.utf8.specs.Grammar.{rows};
ghost use Rattle.utf8.specs.Reading.{awaiting, after_lead, awaited_of, stepped, fresh, fault, reading};

use crate::lead::ROWS;

#[derive(Clone, Copy)]
pub struct Utf8Reader {
    state: State,
    begin: u64,
}

#[derive(Clone, Copy)]
enum State {
    Start,
    Need { left: u8, low: u8, high: u8 },
    Wrong,
}

fn need(left: u8, low: u8, high: u8) -> State
    ensures { awaited_of result ≡ awaiting left low high }
{
    if left == 0 {
        State::Start
    } else {
        State::Need { left, low, high }
    }
}

fn after_lead(byte: u8) -> State
    ensures { awaited_of result ≡ after_lead rows byte }
{
    for row in &ROWS {
        if row.first <= byte && byte <= row.last {
            return need(row.tails, row.low, row.high);
        }
    }
    State::Wrong
}

impl Utf8Reader {
    // A reader before the first byte.
    pub fn new() -> Utf8Reader
        ensures { reading result ≡ fresh }
    {
        Utf8Reader {
            state: State::Start,
            begin: 0,
        }
    }

    // Takes one byte more, which stands at this place.
    pub fn step(&mut self, place: u64, byte: u8)
        ensures { reading self.new ≡ stepped (reading self.old) place byte }
    {
        match self.state {
            State::Start => {
                self.begin = place;
                self.state = after_lead(byte);
            }
            State::Need { left, low, high } => {
                if low <= byte && byte <= high {
                    self.state = need(left.saturating_sub(1), 0x80, 0xBF);
                } else {
                    self.state = State::Wrong;
                }
            }
            State::Wrong => {}
        }
    }

    // Where the first bad character begins, if the text ends here.
    pub fn first_bad(&self) -> Option<u64>
        ensures { result ≡ fault (reading self.now) }
    {
        match self.state {
            State::Start => None,
            State::Need { .. } => Some(self.begin),
            State::Wrong => Some(self.begin),
        }
    }
}
