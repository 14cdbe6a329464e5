//! What a command line asks for.

ghost use Rattle.std.specs.Prelude.{◌≡◌, ◌<◌, ◌≤◌, ◌+◌, if◌then◌else◌, drop, length, IfErr, IfOk};
ghost use Rattle.teasel_words.specs.{Given.Given, Given.given_of, Given.set_flag, Given.set_value, Given.IsSet, Given.IsPut, Given.IsPutSome, Given.text_if, Given.texts_of, Given.value_part, Given.name_part, Given.behind, Given.joined_value, Given.is_file, Given.fresh};
ghost use Rattle.teasel_words.specs.{Table.all_options, Table.first_option, Spelling.HasFollowed, Spelling.IsRead, Spelling.IsRest, Spelling.IsTaken, Spelling.IsWhole, Spelling.fits, Spelling.head_of, Spelling.start_named, Spelling.counted, Spelling.taken, Spelling.with_option, Spelling.with_value, Spelling.without_value};

use crate::choices::{Color, Encoding, Kind, color_named, encoding_named, kind_named, size_named};
use crate::table::{Opt, Word, option_named, word_among, word_named};
use std::alloc::{AllocError, AllocFailed, Global};

/// What a command line asks for.
#[derive(Drop)]
pub struct Asked<'a> {
    pub word: Word,
    /// Whether the word is to be explained, and nothing else.
    pub help: bool,
    pub files: Vec<&'a str>,
    pub output: Option<&'a str>,
    pub worlds: Vec<&'a str>,
    pub encoding: Encoding,
    pub kind: Option<Kind>,
    pub json: bool,
    pub quiet: bool,
    pub force: bool,
    pub color: Color,
    /// So many bytes of text are written at most.
    pub most: u64,
    /// So many bytes of a file are read at most.
    pub most_read: u64,
    /// All that follows is a file.
    pub plain: bool,
}

/// Why words ask for nothing.
#[derive(Clone, Copy)]
pub enum Misuse<'a> {
    Memory,
    NoWord,
    /// No word has this name.
    NoSuchWord(&'a str),
    /// The word has no such option.
    NoSuchOption(Word, &'a str),
    /// The option wants a value.
    NoValue(Opt),
    /// The option has no value, or not this one.
    BadValue(Opt, &'a str),
    /// The word takes another number of files.
    Files(Word),
}

impl<'a> From<AllocError> for Misuse<'a> {
    ghost use Rattle.std.specs.Prelude.{◌≡◌};
    ghost use Rattle.teasel_words.specs.declared.asked.Misuse.TheVariants as misuses;

    ghost from_gives = { λ _ r. r ≡ misuses.Memory };

    fn from(_error: AllocError) -> Misuse<'a> {
        Misuse::Memory
    }
}

impl<'a, T: Drop> From<AllocFailed<T>> for Misuse<'a> {
    ghost use Rattle.std.specs.Prelude.{◌≡◌};
    ghost use Rattle.teasel_words.specs.declared.asked.Misuse.TheVariants as misuses;

    ghost from_gives = { λ _ r. r ≡ misuses.Memory };

    fn from(_error: AllocFailed<T>) -> Misuse<'a> {
        Misuse::Memory
    }
}

/// The value that is joined to a short name, as in `-oFILE`.
fn joined<'a>(word: &'a str, name: &str) -> Option<&'a str>
    ensures { text_if result ≡ joined_value (behind name.now word.now) }
{
    let value = word.strip_prefix(name)?;
    match value.as_bytes().first() {
        None => None,
        Some(byte) => { if *byte == b'=' { None } else { Some(value) } }
    }
}

/// The name of an option and its value, where the word has one: joined to `-o` or `-w`, or behind a `=`.
#[tactic(auto, unfolding(crate::specs::Given::name_part, crate::specs::Given::value_part))]
fn cut(word: &str) -> (&str, Option<&str>)
    ensures name { result.0.now ≡ name_part word.now }
    ensures value { text_if result.1 ≡ value_part word.now }
{
    if let Some(file) = joined(word, "-o") {
        return ("-o", Some(file));
    }
    if let Some(world) = joined(word, "-w") {
        return ("-w", Some(world));
    }
    match word.split_once('=') {
        Some((name, value)) => (name, Some(value)),
        None => (word, None),
    }
}

/// Whether a word is a file, and no option.
#[tactic(auto, unfolding(crate::specs::Given::is_file))]
fn is_name_of_file(word: &str) -> bool
    ensures { result ≡ is_file word.now }
{
    word == "-" || word.as_bytes().first() != Some(&b'-')
}

impl<'a> Asked<'a> {
    /// A word alone.
    fn new(alloc: Global, word: Word) -> Asked<'a>
        ensures { given_of result ≡ fresh word }
    {
        Asked {
            word,
            help: false,
            files: Vec::new(alloc),
            output: None,
            worlds: Vec::new(alloc),
            encoding: Encoding::Utf8,
            kind: None,
            json: false,
            quiet: false,
            force: false,
            color: Color::Auto,
            most: 268_435_456,
            most_read: 1_073_741_824,
            plain: false,
        }
    }

    /// Sets an option that has no value.
    fn set_flag(&mut self, option: Opt)
        ensures { given_of self.new ≡ set_flag option (given_of self.old) }
    {
        match option {
            Opt::Json => self.json = true,
            Opt::Quiet => self.quiet = true,
            Opt::Force => self.force = true,
            Opt::Help => self.help = true,
            _ => {}
        }
    }

    /// Sets an option to a value, and returns whether it may have that value.
    fn set_value(&mut self, option: Opt, value: &'a str) -> Result<bool, AllocError>
        ensures { IfOk result (λ is_set. IsSet (set_value option value.now (given_of self.old)) is_set (given_of self.new)) }
    {
        match option {
            Opt::Output => self.output = Some(value),
            Opt::World => self.worlds.push(value)?,
            Opt::Encoding => return Ok(put(&mut self.encoding, encoding_named(value))),
            Opt::As => return Ok(put_some(&mut self.kind, kind_named(value))),
            Opt::Color => return Ok(put(&mut self.color, color_named(value))),
            Opt::Most => return Ok(put(&mut self.most, size_named(value))),
            Opt::MostRead => return Ok(put(&mut self.most_read, size_named(value))),
            _ => return Ok(false),
        }
        Ok(true)
    }
}

impl<'a> Asked<'a> {
    /// Sets an option to a value, which is the next word or not.
    fn take_value(&mut self, option: Opt, value: &'a str, both: bool) -> Result<bool, Misuse<'a>>
        ensures { IsTaken (counted both (set_value option value.now (given_of self.old))) (given_of self.new) result }
    {
        if self.set_value(option, value)? {
            Ok(both)
        } else {
            Err(Misuse::BadValue(option, value))
        }
    }

    /// Takes an option that has a value.
    fn take_with_value(
        &mut self,
        option: Opt,
        value: Option<&'a str>,
        next: Option<&'a str>,
    ) -> Result<bool, Misuse<'a>>
        ensures { IsTaken (with_value option (text_if value.entry) (text_if next.entry) (given_of self.old)) (given_of self.new) result }
    {
        match (value, next) {
            (Some(value), _) => self.take_value(option, value, false),
            (None, Some(value)) => self.take_value(option, value, true),
            (None, None) => Err(Misuse::NoValue(option)),
        }
    }

    /// Takes an option that has none.
    fn take_flag(&mut self, option: Opt, value: Option<&'a str>) -> Result<bool, Misuse<'a>>
        ensures { IsTaken (without_value option (text_if value.entry) (given_of self.old)) (given_of self.new) result }
    {
        match value {
            Some(value) => Err(Misuse::BadValue(option, value)),
            None => {
                self.set_flag(option);
                Ok(false)
            }
        }
    }

    /// Takes an option of the word that is asked for, by its name.
    fn take_option(
        &mut self,
        name: &'a str,
        value: Option<&'a str>,
        next: Option<&'a str>,
    ) -> Result<bool, Misuse<'a>>
        ensures { IsTaken (with_option (first_option all_options name.now) (text_if value.entry) (text_if next.entry) (given_of self.old))
            (given_of self.new) result }
    {
        let Some(option) = option_named(name) else {
            return Err(Misuse::NoSuchOption(self.word, name));
        };
        let line = option.line();
        if word_among(line.words, self.word.line().name).is_none() {
            return Err(Misuse::NoSuchOption(self.word, name));
        }
        if line.value.is_empty() {
            self.take_flag(option, value)
        } else {
            self.take_with_value(option, value, next)
        }
    }

    /// Takes a word, and the next one where it is an option's value. Returns whether it is.
    #[tactic(auto, unfolding(crate::specs::Spelling::taken))]
    fn take(&mut self, word: &'a str, next: Option<&'a str>) -> Result<bool, Misuse<'a>>
        ensures { IsTaken (taken word.now (text_if next.entry) (given_of self.old)) (given_of self.new) result }
    {
        if self.plain || is_name_of_file(word) {
            self.files.push(word)?;
            return Ok(false);
        }
        if word == "--" {
            self.plain = true;
            return Ok(false);
        }
        let (name, value) = cut(word);
        self.take_option(name, value, next)
    }
}

/// Puts a value in place of another where it is there, and returns whether it is.
fn put<T: Copy>(place: &mut T, value: Option<T>) -> bool
    ensures { IsPut value place.old place.new result }
{
    match value {
        Some(value) => {
            *place = value;
            true
        }
        None => false,
    }
}

/// The same of a value that may lack.
fn put_some<T: Copy>(place: &mut Option<T>, value: Option<T>) -> bool
    ensures { IsPutSome value place.old place.new result }
{
    if value.is_none() {
        return false;
    }
    *place = value;
    true
}

/// The word behind a place, where there is one.
fn next_word<'a>(words: &[&'a str], at: usize) -> Option<&'a str>
    requires { at < length words.now }
    ensures { text_if result ≡ head_of (drop (at + 1) (texts_of words.now)) }
{
    if at + 1 < words.len() {
        Some(words[at + 1])
    } else {
        None
    }
}

/// How many words are taken, where the next is taken too or not.
fn count_of(both: bool) -> usize
    ensures value { result ≡ (if both then 2 else 1) }
    ensures some { 0 < result }
    ensures few { result ≤ 2 }
{
    if both { 2 } else { 1 }
}

/// Takes all words from a place on.
fn follow<'a>(words: &[&'a str], from: usize, asked: &mut Asked<'a>) -> Result<(), Misuse<'a>>
    requires { from ≤ length words.now }
    ensures { HasFollowed (drop from (texts_of words.now)) (given_of asked.old) (given_of asked.new) result }
{
    let mut at = from;
    while at < words.len() {
        let next = next_word(words, at);
        match asked.take(words[at], next) {
            Ok(both) => at += count_of(both),
            Err(misuse) => return Err(misuse),
        }
    }
    Ok(())
}

/// The word that a first word asks for.
#[tactic(auto, unfolding(crate::specs::Spelling::start_named))]
fn start(name: &str) -> Option<Word>
    ensures { result ≡ start_named name.now }
{
    if name == "-h" || name == "--help" {
        Some(Word::Help)
    } else if name == "-V" || name == "--version" {
        Some(Word::Version)
    } else {
        word_named(name)
    }
}

/// Whether the word is to be explained, or has as many files as it takes.
#[tactic(auto, unfolding(crate::specs::Spelling::fits))]
fn is_fit(asked: &Asked<'_>) -> bool
    ensures { result ≡ fits (given_of asked.now) }
{
    let line = asked.word.line();
    asked.help || (line.least <= asked.files.len() && asked.files.len() <= line.most)
}

/// What is asked for, where the word has as many files as it takes.
fn whole<'a>(asked: Asked<'a>) -> Result<Asked<'a>, Misuse<'a>>
    ensures { IsWhole (given_of asked.entry) result }
{
    if is_fit(&asked) {
        Ok(asked)
    } else {
        Err(Misuse::Files(asked.word))
    }
}

/// What the words behind a first word ask for.
fn read_rest<'a>(alloc: Global, word: Word, words: &[&'a str]) -> Result<Asked<'a>, Misuse<'a>>
    requires { 0 < length words.now }
    ensures { IsRest (drop 1 (texts_of words.now)) (fresh word) result }
{
    let mut asked = Asked::new(alloc, word);
    match follow(words, 1, &mut asked) {
        Ok(()) => whole(asked),
        Err(misuse) => Err(misuse),
    }
}

/// What the words behind the program's name ask for, or why they ask for nothing. Takes time and memory linear in their number.
pub fn read_words<'a>(alloc: Global, words: &[&'a str]) -> Result<Asked<'a>, Misuse<'a>>
    ensures { IsRead (texts_of words.now) result }
{
    if words.len() < 1 {
        return Err(Misuse::NoWord);
    }
    let first = words[0];
    match start(first) {
        Some(word) => read_rest(alloc, word, words),
        None => Err(Misuse::NoSuchWord(first)),
    }
}
