// The numbered table of answers. `specs/Answers.antt` has the same numbers for the definitions.
ghost use Rattle.std.specs.Prelude.{◌≡◌, ℕ};
ghost use Rattle.integers.specs.Answers.{Answer, number_of, read_answer};

pub const DONE: u8 = 0;

// A block names a vacant dynamic index.
pub const WAITS: u8 = 1;

// What a reader answers: what it found and the place after it, or why it refuses.
pub type Read<T> = Result<(T, usize), Refusal>;

// The number of what a reader answers, 0 for what it found: that of each definition that says what is told of it (`int_answer`, `string_answer` and so on).
pub fn number<T>(read: &Read<T>) -> u8
    ensures { (told : T → ℕ → Answer) → ((x : T) → (next : ℕ) → (told x next).number ≡ 0) → result ≡ (read_answer told read.now).number }
{
    match read {
        Ok(_) => DONE,
        Err(why) => why.number(),
    }
}

// Why something is refused. 4 is not given any more: strings whose H bit is set are unpacked. 15 is not given: an insert that finds all 128 places
// held passes the limit, which is judged first.
#[derive(Clone, Copy, Debug, PartialEq, Eq)]
pub enum Refusal {
    // Bytes end inside an instruction or representation.
    Truncated = 2,
    // An integer is too large or too long.
    TooLarge = 3,
    // An index or instruction is not allowed here.
    NotAllowed = 5,
    // An insert at a held index.
    Held = 6,
    // The limit is passed.
    OverLimit = 7,
    // A vacant index: insert's name, delete, enquiry.
    Vacant = 8,
    // A delete of an entry under deletion.
    UnderDeletion = 9,
    // An acknowledgement or enquiry of an entry not under deletion.
    NotUnderDeletion = 10,
    // The stream number, the part number, or a part out of turn.
    OutOfTurn = 11,
    // Lent output or memory is too small.
    NoRoom = 12,
    // A string or block is too long.
    TooLong = 13,
    // A bad stream list.
    BadStreamList = 14,
    // The field list is not in its form.
    BadFieldList = 16,
    // The memory forms no state.
    NoState = 17,
    // A packed string holds the end mark, or other padding than at most seven ones.
    BadPacking = 18,
    // An integer's last group is zero, and is not its only group.
    Padded = 19,
}

impl Refusal {
    // Its number in the table.
    pub fn number(self) -> u8
        ensures { result ≡ number_of self }
    {
        self as u8
    }
}
