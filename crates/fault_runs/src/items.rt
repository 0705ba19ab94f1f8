//! What a line asks for.

/// The word of an item.
#[derive(Clone, Copy, PartialEq, Eq)]
pub enum Key {
    Words,
    Script,
    Unended,
    Made,
    Disk,
    Read,
    Write,
    Piece,
    Recorded,
    Lost,
    All,
    Bytes,
    First,
    Lines,
    Many,
    Last,
    Judged,
    Told,
    Log,
}

const KEYS: [(&str, Key); 19] = [
    ("words", Key::Words),
    ("script", Key::Script),
    ("unended", Key::Unended),
    ("made", Key::Made),
    ("disk", Key::Disk),
    ("read", Key::Read),
    ("write", Key::Write),
    ("piece", Key::Piece),
    ("recorded", Key::Recorded),
    ("lost", Key::Lost),
    ("all", Key::All),
    ("bytes", Key::Bytes),
    ("first", Key::First),
    ("lines", Key::Lines),
    ("many", Key::Many),
    ("last", Key::Last),
    ("judged", Key::Judged),
    ("told", Key::Told),
    ("log", Key::Log),
];

/// The word of an item, and what follows it; nothing, where there is no such word.
pub fn item_of(item: &str) -> Option<(Key, &str)> {
    let (word, rest) = item.split_once(" ").unwrap_or((item, ""));
    for (name, key) in KEYS {
        if name == word {
            return Some((key, rest));
        }
    }
    None
}

/// A number; 0 where it is none.
pub fn number(text: &str) -> u64 {
    text.parse::<u64>().unwrap_or(0)
}

/// A run: its words, its input, or the number that it is made of, the number of the call that fails, 0 for none, the size of a piece, and whether the input ends without a newline, there was a record before, and the disk loses what wasn't synced and the log is opened after it.
#[derive(Clone, Copy)]
pub struct Case<'a> {
    pub words: &'a str,
    pub script: &'a str,
    pub made: u64,
    pub disk: u64,
    pub read: u64,
    pub write: u64,
    pub piece: usize,
    pub is_unended: bool,
    pub is_recorded: bool,
    pub is_lost: bool,
    pub is_opened: bool,
}

impl<'a> Case<'a> {
    /// The run of a line.
    pub fn of(line: &'a str) -> Case<'a> {
        let mut case = Case {
            words: "",
            script: "",
            made: 0,
            disk: 0,
            read: 0,
            write: 0,
            piece: 1_000_000,
            is_unended: false,
            is_recorded: false,
            is_lost: false,
            is_opened: false,
        };
        for item in line.split("; ") {
            if let Some((key, rest)) = item_of(item) {
                case.set(key, rest);
            }
        }
        case
    }

    /// Takes what an item says of the run.
    fn set(&mut self, key: Key, rest: &'a str) {
        match key {
            Key::Words => self.words = rest,
            Key::Script => self.script = rest,
            Key::Made => self.made = number(rest),
            Key::Disk => self.disk = number(rest),
            Key::Read => self.read = number(rest),
            Key::Write => self.write = number(rest),
            Key::Piece => self.piece = number(rest) as usize,
            Key::Unended => self.is_unended = true,
            Key::Recorded => self.is_recorded = true,
            Key::Lost => self.is_lost = true,
            Key::Log => self.is_opened = true,
            _ => (),
        }
    }
}
