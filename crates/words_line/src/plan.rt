//! What the words ask for, and what may be wrong with them.
use std::alloc::AllocError;
use std::marker::Model;
use thiserror::Error;

/// A text that contracts see as its bytes.
#[derive(Drop, Debug)]
pub struct Text {
    text: String,
}

impl Model for Text {
    ghost use Rattle.std.specs.Prelude.{List, ℕ, string_bytes};

    ghost Value = { List ℕ };

    ghost view = { λ t. string_bytes t.text };
}

impl Text {
    ghost use Rattle.std.specs.Prelude.{◌≡◌, string_bytes};

    /// The text, as this type.
    pub fn from_string(text: String) -> Text
        ensures { result ≡ string_bytes text }
    {
        Text { text }
    }

    /// The text itself.
    pub fn into_string(self) -> String
        ensures { string_bytes result ≡ self }
    {
        let Text { text } = self;
        text
    }

    /// The text, to read.
    pub fn as_str(&self) -> &str
        ensures { result.now ≡ self.now }
    {
        self.text.as_str()
    }
}

/// Words that contracts see as the list of their bytes.
#[derive(Drop, Debug)]
pub struct Texts {
    words: Vec<String>,
}

impl Model for Texts {
    ghost use Rattle.std.specs.Prelude.{List, ℕ, map, string_bytes};

    ghost Value = { List (List ℕ) };

    ghost view = { λ t. map (λ word. string_bytes word) t.words.items };
}

impl Texts {
    ghost use Rattle.std.specs.Prelude.{◌≡◌};
    ghost use Rattle.words_line.specs.Commands.{texts};

    /// The words, as this type.
    pub fn from_vec(words: Vec<String>) -> Texts
        ensures { result ≡ texts words.items }
    {
        Texts { words }
    }

    /// The words themselves.
    pub fn into_vec(self) -> Vec<String>
        ensures { texts result.items ≡ self }
    {
        let Texts { words } = self;
        words
    }

    /// The words, to read.
    pub fn as_slice(&self) -> &[String]
        ensures { texts result.now ≡ self.now }
    {
        self.words.as_slice()
    }
}

/// What a line of words asks for.
#[derive(Drop, Debug)]
pub enum Plan {
    /// Writes the IR of the program in the file `prog`, with the blocks of the file `base` and for the misses of the
    /// report in the file `misses`.
    Lift {
        prog: Text,
        base: Option<Text>,
        misses: Option<Text>,
    },
    /// Runs the program in the file `prog`, with the blocks of the file `ir`. `strict` ends it at the first miss; `serial`
    /// runs its threads in turn; `turn` is 1 to 65,536, `hold` at most 255, `steps` 1 to 134,217,728. Afterwards the
    /// journal goes to the file `journal` and the misses to the file `report`. `args` are the program's arguments.
    Run {
        prog: Text,
        ir: Option<Text>,
        strict: bool,
        serial: bool,
        turn: u32,
        hold: u32,
        steps: u64,
        report: Option<Text>,
        journal: Option<Text>,
        args: Texts,
    },
    /// Writes the generated program of three numbers to the file `name`, and runs it. `threads` is 1 to 63, `rounds` 1 to
    /// 1,000,000.
    Gen {
        number: u32,
        threads: u32,
        rounds: u32,
        name: Text,
    },
}

/// What is wrong with the words.
#[derive(Clone, Copy, Debug, PartialEq, Eq, Error)]
pub enum WordsFault {
    /// There are no words.
    #[error("no command")]
    NoCommand,
    /// The first word is no command.
    #[error("unknown command")]
    UnknownCommand,
    /// The words after the command are none that it takes.
    #[error("bad line")]
    Line,
}

/// Why no plan was read.
#[derive(Clone, Copy, Debug, Error)]
pub enum WordsError {
    /// The words are at fault.
    #[error("{0}")]
    Fault(WordsFault),
    /// Memory ran out.
    #[error("no memory")]
    Memory(AllocError),
}
