//! The words of a line, with one space between.

use std::alloc::{AllocError, Global};
use std::hash::Hash;
use wit_model::Map;

/// Why a line isn't read.
#[derive(Clone, Copy, Debug, PartialEq, Eq)]
pub enum Bad {
    Memory,
    /// A word is missing, or no such word may stand here.
    Form,
}

/// What is left of a line.
///
/// Reading goes on behind a word that may not stand there, and gives anything: `end` tells whether all was read.
#[derive(Drop)]
pub struct Words<'a> {
    pub alloc: Global,
    rest: &'a [u8],
    bad: Option<Bad>,
}

/// What stands in a line as words.
pub trait FromWords {
    fn from_words(words: &mut Words<'_>) -> Self;
}

impl<'a> Words<'a> {
    pub fn new(alloc: Global, line: &'a [u8]) -> Words<'a> {
        Words {
            alloc,
            rest: line,
            bad: None,
        }
    }

    /// The line is not read, for this reason if it is the first.
    pub fn fail(&mut self, bad: Bad) {
        if self.bad.is_none() {
            self.bad = Some(bad);
        }
    }

    /// Whether no word is left.
    pub fn is_at_end(&self) -> bool {
        self.rest.is_empty()
    }

    /// Whether all words were read, and each might stand where it stood.
    pub fn end(&self) -> Result<(), Bad> {
        match self.bad {
            Some(bad) => Err(bad),
            None => {
                if self.is_at_end() {
                    Ok(())
                } else {
                    Err(Bad::Form)
                }
            }
        }
    }

    // ---- words and bytes of them

    /// The next word, which is empty where there is none.
    pub fn word(&mut self) -> &'a [u8] {
        let rest = self.rest;
        let end = rest
            .iter()
            .position(|byte| *byte == b' ')
            .unwrap_or(rest.len());
        let (word, after) = rest.split_at(end.min(rest.len()));
        self.rest = after;
        self.pass_space();
        word
    }

    // Passes the space behind a word. None stands behind the last one.
    fn pass_space(&mut self) {
        match self.rest.split_first() {
            Some((b' ', after)) => self.rest = after,
            Some(_) => self.fail(Bad::Form),
            None => {}
        }
    }

    // The next byte, or a quotation mark where there is none.
    fn byte(&mut self) -> u8 {
        match self.rest.split_first() {
            Some((first, after)) => {
                self.rest = after;
                *first
            }
            None => {
                self.fail(Bad::Form);
                b'"'
            }
        }
    }

    // Whether the next word begins with a quotation mark, which is then passed.
    fn opens(&mut self) -> bool {
        match self.rest.split_first() {
            Some((b'"', after)) => {
                self.rest = after;
                true
            }
            _ => false,
        }
    }

    fn put(&mut self, bytes: &mut Vec<u8>, byte: u8) {
        if bytes.push(byte).is_err() {
            self.fail(Bad::Memory);
        }
    }

    // ---- numbers

    /// The number that a word is.
    pub fn number_of(&mut self, word: &[u8]) -> u32 {
        match number_of(word) {
            Some(number) => number,
            None => {
                self.fail(Bad::Form);
                0
            }
        }
    }

    pub fn number(&mut self) -> u32 {
        let word = self.word();
        self.number_of(word)
    }

    /// A number, or none where `-` stands.
    pub fn optional_number(&mut self) -> Option<u32> {
        match self.word() {
            b"-" => None,
            word => Some(self.number_of(word)),
        }
    }

    /// `0` or `1`.
    pub fn flag(&mut self) -> bool {
        match self.word() {
            b"0" => false,
            b"1" => true,
            _ => {
                self.fail(Bad::Form);
                false
            }
        }
    }

    // ---- bytes and texts

    fn put_digits(&mut self, digits: &[u8], bytes: &mut Vec<u8>) {
        for pair in digits.chunks(2) {
            match byte_of(pair) {
                Some(byte) => self.put(bytes, byte),
                None => self.fail(Bad::Form),
            }
        }
    }

    fn bytes_of(&mut self, word: &[u8]) -> Vec<u8> {
        let mut bytes = Vec::new(self.alloc);
        match word.split_first() {
            Some((b'.', digits)) => self.put_digits(digits, &mut bytes),
            _ => self.fail(Bad::Form),
        }
        bytes
    }

    /// A point and two lower-case hexadecimal digits a byte.
    pub fn bytes(&mut self) -> Vec<u8> {
        let word = self.word();
        self.bytes_of(word)
    }

    fn text_of(&mut self, bytes: Vec<u8>) -> String {
        match String::from_utf8(bytes) {
            Ok(text) => text,
            Err(_) => {
                self.fail(Bad::Form);
                String::new(self.alloc)
            }
        }
    }

    /// A text in quotation marks, or the bytes of one.
    pub fn text(&mut self) -> String {
        let bytes = if self.opens() {
            self.quoted()
        } else {
            self.bytes()
        };
        self.text_of(bytes)
    }

    /// A text, or none where `-` stands.
    pub fn optional_text(&mut self) -> Option<String> {
        if self.rest.starts_with(b"- ") || self.rest == b"-".as_slice() {
            let _ = self.word();
            return None;
        }
        Some(self.text())
    }

    // What follows a quotation mark, to the next that no backslash stands before.
    fn quoted(&mut self) -> Vec<u8> {
        let mut bytes = Vec::new(self.alloc);
        for _ in 0..self.rest.len() {
            match self.byte() {
                b'"' => {
                    self.pass_space();
                    return bytes;
                }
                b'\\' => self.put_escaped(&mut bytes),
                byte => self.put(&mut bytes, byte),
            }
        }
        self.fail(Bad::Form);
        bytes
    }

    // What a backslash and what follows it stand for.
    fn put_escaped(&mut self, bytes: &mut Vec<u8>) {
        match self.byte() {
            b'n' => self.put(bytes, b'\n'),
            b'r' => self.put(bytes, b'\r'),
            b't' => self.put(bytes, b'\t'),
            b'"' => self.put(bytes, b'"'),
            b'\\' => self.put(bytes, b'\\'),
            b'u' => self.put_code(bytes),
            _ => self.fail(Bad::Form),
        }
    }

    // The character of at most six hexadecimal digits in braces.
    fn put_code(&mut self, bytes: &mut Vec<u8>) {
        let code = self.code();
        match code.and_then(char::from_u32) {
            Some(value) => {
                if put_char(self.alloc, value, bytes).is_err() {
                    self.fail(Bad::Memory);
                }
            }
            None => self.fail(Bad::Form),
        }
    }

    fn code(&mut self) -> Option<u32> {
        if self.byte() != b'{' {
            return None;
        }
        let mut code = 0u32;
        for _ in 0..7u32 {
            let byte = self.byte();
            if byte == b'}' {
                return Some(code);
            }
            code = code
                .wrapping_mul(16)
                .wrapping_add(u32::from(digit_of(byte)?));
        }
        None
    }

    // ---- lists

    pub fn read<T: FromWords>(&mut self) -> T {
        T::from_words(self)
    }

    fn put_entry<T: FromWords + Drop>(&mut self, list: &mut Vec<T>) {
        if list.push(T::from_words(self)).is_err() {
            self.fail(Bad::Memory);
        }
    }

    /// A count, and so many entries.
    pub fn list<T: FromWords + Drop>(&mut self) -> Vec<T> {
        let mut list = Vec::new(self.alloc);
        for _ in 0..self.number() {
            self.put_entry(&mut list);
            if self.bad.is_some() {
                break;
            }
        }
        list
    }

    fn put_pair<K: FromWords + Eq + Hash + Drop, V: FromWords + Drop>(
        &mut self,
        map: &mut Map<K, V>,
    ) {
        let key = K::from_words(self);
        if map.insert(key, V::from_words(self)).is_err() {
            self.fail(Bad::Memory);
        }
    }

    /// A count, and so many keys with their values.
    pub fn map<K: FromWords + Eq + Hash + Drop, V: FromWords + Drop>(&mut self) -> Map<K, V> {
        let mut map = Map::new(self.alloc);
        for _ in 0..self.number() {
            self.put_pair(&mut map);
            if self.bad.is_some() {
                break;
            }
        }
        map
    }
}

/// What a word stands for, by a table.
pub fn meaning_of<T: Copy>(table: &[(&[u8], T)], word: &[u8]) -> Option<T> {
    for (name, meaning) in table {
        if *name == word {
            return Some(*meaning);
        }
    }
    None
}

fn put_char(alloc: Global, value: char, bytes: &mut Vec<u8>) -> Result<(), AllocError> {
    let mut text = String::new(alloc);
    text.push(value)?;
    bytes.extend_from_slice(text.as_bytes())
}

// The number of 32 bits that these decimal digits are.
fn number_of(word: &[u8]) -> Option<u32> {
    if word.is_empty() {
        return None;
    }
    let mut number = 0u32;
    for byte in word {
        let digit = char::from(*byte).to_digit(10)?;
        number = number.checked_mul(10)?.checked_add(digit)?;
    }
    Some(number)
}

fn digit_of(byte: u8) -> Option<u8> {
    match byte {
        b'0'..=b'9' => Some(byte - b'0'),
        b'a'..=b'f' => Some(byte - b'a' + 10),
        _ => None,
    }
}

// The byte of two digits.
fn byte_of(pair: &[u8]) -> Option<u8> {
    match pair {
        [high, low] => Some(
            digit_of(*high)?
                .wrapping_mul(16)
                .wrapping_add(digit_of(*low)?),
        ),
        _ => None,
    }
}
