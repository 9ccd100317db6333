// A line of standard input, taken apart into words as it comes, and its answer.
use crate::say::{say, say_one, say_reading};
use crate::word::Word;
use std::io;

// What a line is so far. A note is answered by itself, as it comes.
#[derive(Clone, Copy, PartialEq, Eq)]
pub enum Sort {
    Case,
    BadCase,
    Note,
}

// A line so far: the word that is being read, how many there are before it, and what those are.
#[derive(Clone, Copy)]
pub struct Line {
    pub word: Word,
    pub count: usize,
    pub sort: Sort,
}

// The first of the words is the case's name, and the others are the characters of its line.
fn answer_case(to: io::Stdout, words: &[u16], count: usize) -> io::Result<()> {
    if words.len() < count {
        return Ok(());
    }
    if 0 < count {
        say_reading(to, mbus_reading::read_line(&words[1..count]))?;
    }
    Ok(())
}

impl Line {
    pub(crate) fn new() -> Line {
        let word = Word::new();
        Line {
            word,
            count: 0,
            sort: Sort::Case,
        }
    }

    pub(crate) fn is_empty(self) -> bool {
        let word = self.word;
        (self.count == 0) & (word.count == 0) & (self.sort != Sort::Note)
    }

    // The word ends here and goes among the words, where there is a place for it.
    fn end_word(self, words: &mut [u16; 4096]) -> Line {
        let word = self.word;
        let count = self.count;
        let next = Word::new();
        if 4096 <= count {
            return Line {
                word: next,
                sort: Sort::BadCase,
                ..self
            };
        }
        words[count] = word.value.unwrap_or(0);
        let sort = if word.is_right(count) {
            self.sort
        } else {
            Sort::BadCase
        };
        Line {
            word: next,
            count: count + 1,
            sort,
        }
    }

    fn with_word(self, b: u8, words: &mut [u16; 4096]) -> Line {
        let word = self.word;
        if b == b' ' {
            return self.end_word(words);
        }
        let longer = word.with(b, self.count);
        Line {
            word: longer,
            ..self
        }
    }

    pub(crate) fn with(self, to: io::Stdout, b: u8, words: &mut [u16; 4096]) -> io::Result<Line> {
        if b == b'\n' {
            self.answer(to, words)?;
            return Ok(Line::new());
        }
        if self.sort == Sort::Note || self.is_empty() && b == b'#' {
            say_one(to, b)?;
            return Ok(Line {
                sort: Sort::Note,
                ..self
            });
        }
        Ok(self.with_word(b, words))
    }

    pub(crate) fn answer(self, to: io::Stdout, words: &mut [u16; 4096]) -> io::Result<()> {
        if self.sort != Sort::Note {
            let whole = self.end_word(words);
            if whole.sort == Sort::Case {
                answer_case(to, words, whole.count)?;
            } else {
                say(to, b"bad case")?;
            }
        }
        say(to, b"\n")
    }
}
