//! Tables and runs as texts: a run's lines, and what each says.
use std::alloc::AllocError;

/// The words of the command line where a run has no others.
pub const USUAL_WORDS: &str = "edits out 1=a.pcap 2=";

/// What lines of a run begin with.
pub const WORDS: &str =
    "shows words edits steps mirrors trace fails opened status prints sent rules megaflows journal file whole in_use";

// Those that stand once at most.
const ONCE: &str = "shows words fails opened status whole in_use";

// Those that say what is left.
const LEFT: &str = "sent rules megaflows journal file";

/// Why a text isn't read.
#[derive(Clone, Copy, Debug)]
pub enum Unread {
    /// It isn't made as texts of runs are.
    Malformed,
    OutOfMemory,
}

impl From<AllocError> for Unread {
    fn from(_: AllocError) -> Unread {
        Unread::OutOfMemory
    }
}

/// A run as a text, with another text that says what the first leaves out.
#[derive(Clone, Copy)]
pub struct RunText<'a> {
    own: &'a str,
    like: &'a str,
}

/// The word at the begin of a line, and what it says.
pub fn cut_word(line: &str) -> (&str, &str) {
    line.split_once(' ').unwrap_or((line, ""))
}

/// What a line says, if this is its word.
pub fn said_by<'a>(line: &'a str, word: &str) -> Option<&'a str> {
    let (first, rest) = cut_word(line);
    if first == word { Some(rest) } else { None }
}

/// Whether a word is one of these.
pub fn is_among(word: &str, words: &str) -> bool {
    words.split(' ').any(|listed| listed == word)
}

/// The number that these decimal digits are.
pub fn number_of(digits: &str) -> Result<u64, Unread> {
    match digits.parse::<u64>() {
        Ok(number) => Ok(number),
        Err(_) => Err(Unread::Malformed),
    }
}

// How many lines of a text have a word.
fn count(text: &str, word: &str) -> usize {
    let mut lines = 0_usize;
    for line in text.lines() {
        if said_by(line, word).is_some() {
            lines = lines.saturating_add(1);
        }
    }
    lines
}

fn has_line_among(text: &str, words: &str) -> bool {
    text.lines().any(|line| is_among(cut_word(line).0, words))
}

// Whether each line begins with one of these words, and those that stand once do.
fn is_made_of(text: &str, words: &str) -> bool {
    text.lines().all(|line| is_among(cut_word(line).0, words))
        && ONCE.split(' ').all(|word| count(text, word) <= 1)
}

impl<'a> RunText<'a> {
    /// A run that says for itself what it shows, and for each word that it hasn't what the other text says.
    pub fn new(own: &'a str, like: &'a str) -> RunText<'a> {
        RunText { own, like }
    }

    /// Whether it tells what it shows, and is made of these words.
    pub fn is_made_of(&self, words: &str) -> bool {
        count(self.own, "shows") == 1 && is_made_of(self.own, words) && is_made_of(self.like, words)
    }

    /// Whether it is one of a run: made of the words of runs, and says what is left only where something is to be left.
    pub fn is_sound(&self) -> bool {
        self.is_made_of(WORDS) && (self.leaves_files() || !self.tells_what_is_left())
    }

    /// Whether the run is to be done.
    pub fn is_done(&self) -> bool {
        self.value("status").is_none()
    }

    fn leaves_files(&self) -> bool {
        self.is_done() || self.value("whole").is_some()
    }

    fn tells_what_is_left(&self) -> bool {
        has_line_among(self.own, LEFT) || has_line_among(self.like, LEFT)
    }

    /// The text whose lines of this word count.
    pub fn text_with(&self, word: &str) -> &'a str {
        if count(self.own, word) > 0 {
            self.own
        } else {
            self.like
        }
    }

    /// What is said by the first line of a word.
    pub fn value(&self, word: &str) -> Option<&'a str> {
        for line in self.text_with(word).lines() {
            let value = said_by(line, word);
            if value.is_some() {
                return value;
            }
        }
        None
    }

    /// The number that is said by a word, or else the usual one.
    pub fn number(&self, word: &str, usual: u64) -> Result<u64, Unread> {
        match self.value(word) {
            Some(digits) => number_of(digits),
            None => Ok(usual),
        }
    }

    /// What it shows, or all that it is, where it doesn't tell.
    pub fn shows(&self) -> &'a str {
        self.value("shows").unwrap_or(self.own)
    }

    /// The words of the command line.
    pub fn words(&self) -> &'a str {
        self.value("words").unwrap_or(USUAL_WORDS)
    }
}
