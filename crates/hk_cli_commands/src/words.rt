//! The words of a line of a script.

ghost use Rattle.std.specs.Prelude.{◌≡◌, ◌≤◌, IfOk};
ghost use Rattle.hk_cli_commands.specs.declared.words.Unread.TheVariants.{Memory};

use crate::flaw::Flaw;
use hex::FromHexError;
use hk_types::{Key, MOST_BODY_BYTES, Row, StreamNo, Table, Tag, Time};
use std::alloc::{AllocError, Global};

/// Why a line is no command.
#[derive(Clone, Copy)]
pub(crate) enum Unread {
    /// The line has another form.
    Bad(Flaw),
    /// Memory ran out.
    Memory,
}

impl From<AllocError> for Unread {
    ghost from_gives = { λ _ e. e ≡ Memory };

    fn from(_error: AllocError) -> Unread {
        Unread::Memory
    }
}

/// The words of a line.
#[derive(Drop)]
pub(crate) struct Words<'a> {
    rest: Option<&'a str>,
    /// Whether words may be parted by more than a space.
    is_loose: bool,
    /// How many words were read.
    taken: u64,
}

impl<'a> Words<'a> {
    /// Words that are parted by single spaces.
    pub(crate) fn new(line: &'a str) -> Words<'a> {
        Words {
            rest: Some(line),
            is_loose: false,
            taken: 0,
        }
    }

    /// Words that are separated by one space or more; spaces at the ends are allowed too.
    pub(crate) fn loose(line: &'a str) -> Words<'a> {
        let line = line.trim();
        Words {
            rest: if line.is_empty() { None } else { Some(line) },
            is_loose: true,
            taken: 0,
        }
    }

    /// That the word that was read last is no number.
    fn no_number(&self) -> Unread {
        Unread::Bad(Flaw::NoNumber(self.taken))
    }

    /// That the number that was read last is outside its range.
    fn out_of_range(&self) -> Unread {
        Unread::Bad(Flaw::OutOfRange(self.taken))
    }

    /// That the word that was read last names no query.
    pub(crate) fn no_query(&self) -> Unread {
        Unread::Bad(Flaw::NoQuery(self.taken))
    }

    /// The next word, where one is left.
    pub(crate) fn next(&mut self) -> Option<&'a str> {
        let rest = self.rest?;
        self.taken = self.taken.saturating_add(1);
        match rest.split_once(' ') {
            Some((word, more)) => {
                self.rest = Some(if self.is_loose { more.trim() } else { more });
                Some(word)
            }
            None => {
                self.rest = None;
                Some(rest)
            }
        }
    }

    /// The next word.
    pub(crate) fn word(&mut self) -> Result<&'a str, Unread> {
        self.next().ok_or(Unread::Bad(Flaw::TooFew))
    }

    /// Whether a word is left.
    pub(crate) fn has_more(&self) -> bool {
        self.rest.is_some()
    }

    /// No word is left.
    pub(crate) fn end(&self) -> Result<(), Unread> {
        if self.has_more() {
            return Err(Unread::Bad(Flaw::TooMany));
        }
        Ok(())
    }

    /// A number of decimal digits alone.
    pub(crate) fn number(&mut self) -> Result<u64, Unread> {
        let word = self.word()?;
        if word.is_empty() || !word.bytes().all(|byte| byte.is_ascii_digit()) {
            return Err(self.no_number());
        }
        word.parse::<u64>().ok().ok_or(self.out_of_range())
    }

    /// A number from a least to a greatest one.
    pub(crate) fn within(&mut self, least: u64, most: u64) -> Result<u64, Unread>
        ensures { IfOk result (λ number. (least ≤ number) × (number ≤ most)) }
    {
        let number = self.number()?;
        if number < least || number > most {
            return Err(self.out_of_range());
        }
        Ok(number)
    }

    pub(crate) fn small(&mut self) -> Result<u16, Unread> {
        let number = u16::try_from(self.number()?);
        number.ok().ok_or(self.out_of_range())
    }

    pub(crate) fn table(&mut self) -> Result<Table, Unread> {
        Ok(Table::new(self.small()?))
    }

    pub(crate) fn key(&mut self) -> Result<Key, Unread> {
        Ok(Key::new(self.number()?))
    }

    pub(crate) fn tag(&mut self) -> Result<Tag, Unread> {
        let tag = u32::try_from(self.number()?);
        Ok(Tag::new(tag.ok().ok_or(self.out_of_range())?))
    }

    pub(crate) fn time(&mut self) -> Result<Time, Unread> {
        let time = Time::new(self.number()?);
        time.ok().ok_or(self.out_of_range())
    }

    pub(crate) fn stream(&mut self) -> Result<StreamNo, Unread> {
        let stream = StreamNo::new(self.small()?);
        stream.ok().ok_or(self.out_of_range())
    }

    /// A tag and a body, which is `-` where it is empty, else pairs of lower-case hexadecimal digits.
    pub(crate) fn row(&mut self, alloc: Global) -> Result<Row, Unread> {
        let tag = self.tag()?;
        let word = self.word()?;
        let no_body = Unread::Bad(Flaw::NoBody(self.taken));
        let body = body_of(alloc, word, no_body)?;
        match Row::new(tag, body) {
            Ok(row) => Ok(row),
            Err((_body, _fault)) => Err(no_body),
        }
    }
}

/// Whether a byte is a lower-case hexadecimal digit.
fn is_digit(byte: u8) -> bool {
    byte.is_ascii_digit() || (b'a'..=b'f').contains(&byte)
}

/// The body of a word, or that it is none.
fn body_of(alloc: Global, word: &str, no_body: Unread) -> Result<Vec<u8>, Unread> {
    if word == "-" {
        return Ok(Vec::new(alloc));
    }
    if word.is_empty() || word.len() > 2 * MOST_BODY_BYTES || !word.bytes().all(is_digit) {
        return Err(no_body);
    }
    match hex::decode(alloc, word) {
        Ok(body) => Ok(body),
        Err(FromHexError::OutOfMemory) => Err(Unread::Memory),
        Err(_odd) => Err(no_body),
    }
}
