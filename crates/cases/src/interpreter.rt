//! Lines, one after the other, on the `Resolve` that was read last.

ghost use Rattle.std.specs.Prelude.{IfOk};
ghost use Rattle.wit_model.specs.Valid.{IsValid};
ghost use Rattle.wit_component.specs.Bindings.{IsBindgen};

use case_calls::answer::{Answer, Reply};
use case_calls::asked::{Asked, Marked, OnAny, OnBytes, OnValid, Setting, Validity, asked_by};
use case_calls::bindings::{binding, merge};
use case_calls::calls;
use case_calls::encoder::value_type;
use case_calls::encodings::{EncodingWord, UnversionedWords, letters};
use case_calls::marks::Marks;
use case_calls::names::names;
use case_calls::no_memory::no_memory;
use case_words::{Bad, Words};
use std::alloc::Global;
use std::io;
use std::rt::Clock;
use std::time::Instant;
use wit_component::{
    Bindgen, Error, ModuleMetadata, PackageId, Place, Resolve, Side, WorldId, metadata,
};

#[derive(Drop)]
pub struct Interpreter {
    current: Option<Resolve>,
    /// The second one of a comparison.
    other: Option<Resolve>,
    /// The encodings that were made last.
    metadata: Option<ModuleMetadata>,
    /// What worlds are merged into.
    bound: Option<Bindgen>,
    /// Those of the call that the line asks for.
    marks: Marks,
    /// The bytes that were kept last.
    kept: Option<Vec<u8>>,
    /// The texts that were kept last.
    texts: Option<Vec<String>>,
    is_brief: bool,
}

// ---- parts of lines

/// `i` for imports, or `e` for exports.
fn side(words: &mut Words<'_>) -> Side {
    match words.word() {
        b"i" => Side::Imports,
        b"e" => Side::Exports,
        _ => {
            words.fail(Bad::Form);
            Side::Imports
        }
    }
}

/// `i` and an interface, `w` and a world, or `m`, a world and an index.
fn place(words: &mut Words<'_>) -> Place {
    match words.word() {
        b"i" => Place::Interface(words.read()),
        b"w" => Place::World(words.read()),
        b"m" => Place::Import(words.read(), words.number() as usize),
        _ => {
            words.fail(Bad::Form);
            Place::World(WorldId(0))
        }
    }
}

// A whole `Resolve`, to the end of the line.
fn resolve(words: &mut Words<'_>) -> Result<Resolve, Answer> {
    let resolve = words.read();
    words.end()?;
    Ok(resolve)
}

fn either(outcome: Result<Answer, Answer>) -> Answer {
    match outcome {
        Ok(answer) => answer,
        Err(answer) => answer,
    }
}

// ---- calls on a valid `Resolve`, and on bytes

fn encode(alloc: Global, resolve: &Resolve, words: &mut Words<'_>) -> Result<Answer, Answer>
    requires { IsValid resolve.now }
{
    let id = words.read();
    let canonical_names = words.flag();
    words.end()?;
    calls::encode_package(alloc, resolve, id, canonical_names)
}

fn world_type(alloc: Global, resolve: &Resolve, words: &mut Words<'_>) -> Result<Answer, Answer>
    requires { IsValid resolve.now }
{
    let id = words.read();
    let is_wrapped = words.flag();
    let canonical_names = words.flag();
    words.end()?;
    if is_wrapped {
        calls::wrapped_type(alloc, resolve, id, canonical_names)
    } else {
        calls::world_type(alloc, resolve, id, canonical_names)
    }
}

fn section(alloc: Global, resolve: &Resolve, words: &mut Words<'_>) -> Result<Answer, Answer>
    requires { IsValid resolve.now }
{
    let id = words.read();
    let word: EncodingWord = words.read();
    let canonical_names = words.flag();
    words.end()?;
    calls::encode_metadata(alloc, resolve, id, word.encoding, canonical_names)
}

fn print(alloc: Global, resolve: &Resolve, words: &mut Words<'_>) -> Result<Answer, Answer>
    requires { IsValid resolve.now }
{
    let id = words.read();
    let emit_docs = words.flag();
    let nested: Vec<PackageId> = words.list();
    words.end()?;
    calls::print_package(alloc, resolve, id, emit_docs, &nested)
}

fn normal(alloc: Global, resolve: &Resolve, words: &mut Words<'_>) -> Result<Answer, Answer>
    requires { IsValid resolve.now }
{
    let id = words.read();
    words.end()?;
    calls::normal_text(alloc, resolve, id)
}

fn on_valid(
    alloc: Global,
    resolve: &Resolve,
    call: OnValid,
    words: &mut Words<'_>,
) -> Result<Answer, Answer>
    requires { IsValid resolve.now }
{
    match call {
        OnValid::Encode => encode(alloc, resolve, words),
        OnValid::World => world_type(alloc, resolve, words),
        OnValid::Metadata => section(alloc, resolve, words),
        OnValid::Print => print(alloc, resolve, words),
        OnValid::Normal => normal(alloc, resolve, words),
        OnValid::Names => names(alloc, resolve),
    }
}

fn timed_on_valid<R: Clock>(
    clock: &R,
    alloc: Global,
    marks: Marks,
    resolve: &Resolve,
    call: OnValid,
    words: &mut Words<'_>,
) -> io::Result<Reply>
    requires { IsValid resolve.now }
{
    let start = Instant::now(clock)?;
    marks.begin(alloc)?;
    let answer = either(on_valid(alloc, resolve, call, words));
    marks.end(alloc)?;
    let spent = start.elapsed(clock)?;
    Ok(Reply { answer, spent })
}

fn semver_of(
    alloc: Global,
    resolve: Resolve,
    is_counted: bool,
    prev: WorldId,
    new: WorldId,
) -> Result<Answer, Answer>
    requires { IsValid resolve }
{
    if is_counted {
        calls::semver_counted(alloc, resolve, prev, new)
    } else {
        calls::semver(alloc, resolve, prev, new)
    }
}

fn timed_semver<R: Clock>(
    clock: &R,
    alloc: Global,
    marks: Marks,
    resolve: Resolve,
    is_counted: bool,
    prev: WorldId,
    new: WorldId,
) -> io::Result<Reply>
    requires { IsValid resolve }
{
    let start = Instant::now(clock)?;
    marks.begin(alloc)?;
    let answer = either(semver_of(alloc, resolve, is_counted, prev, new));
    marks.end(alloc)?;
    let spent = start.elapsed(clock)?;
    Ok(Reply { answer, spent })
}

fn sense_of(
    alloc: Global,
    marks: Marks,
    resolve: &Resolve,
    at: Place,
    other: &Resolve,
    place: Place,
) -> Result<Answer, Answer> {
    calls::test_valid(alloc, resolve)?;
    calls::test_valid(alloc, other)?;
    calls::sense(alloc, marks, resolve, at, other, place)
}

fn label(words: &mut Words<'_>) -> Result<Answer, Answer> {
    let text = words.text();
    words.end()?;
    Ok(calls::label(&text))
}

fn on_bytes(alloc: Global, call: OnBytes, bytes: &[u8]) -> Result<Answer, Answer> {
    match call {
        OnBytes::Text => calls::decoded_text(alloc, bytes),
        OnBytes::WorldText => calls::decoded_world_text(alloc, bytes),
        OnBytes::Decode => Ok(calls::decode_package(alloc, bytes, false)),
        OnBytes::DecodeAt => Ok(calls::decode_package(alloc, bytes, true)),
        OnBytes::Strip => calls::strip(alloc, bytes),
        OnBytes::Said => calls::said(bytes),
        OnBytes::Bound => calls::bound_text(alloc, bytes),
        OnBytes::Stripped => calls::left_of_module(alloc, bytes),
        OnBytes::RefusedSection => calls::refused_section(alloc, bytes),
    }
}

impl Interpreter {
    pub fn new() -> Interpreter {
        Interpreter {
            current: None,
            other: None,
            metadata: None,
            bound: None,
            marks: Marks { are_made: false },
            kept: None,
            texts: None,
            is_brief: false,
        }
    }

    // ---- lines that are kept

    fn read(&mut self, words: &mut Words<'_>) -> Result<Answer, Answer> {
        self.current = None;
        self.current = Some(resolve(words)?);
        Ok(Answer::Yes)
    }

    fn read_other(&mut self, words: &mut Words<'_>) -> Result<Answer, Answer> {
        self.other = None;
        self.other = Some(resolve(words)?);
        Ok(Answer::Yes)
    }

    fn set_brief(&mut self, is_brief: bool) -> Answer {
        self.is_brief = is_brief;
        Answer::Yes
    }

    fn keep(&mut self, words: &mut Words<'_>) -> Result<Answer, Answer> {
        self.kept = None;
        let bytes = words.bytes();
        words.end()?;
        self.kept = Some(bytes);
        Ok(Answer::Yes)
    }

    fn keep_texts(&mut self, words: &mut Words<'_>) -> Result<Answer, Answer> {
        self.texts = None;
        let texts = words.list();
        words.end()?;
        self.texts = Some(texts);
        Ok(Answer::Yes)
    }

    // The `Resolve` of the texts that were kept is the one that lines are asked on from now on.
    fn read_texts(&mut self, alloc: Global, words: &mut Words<'_>) -> Result<Answer, Answer> {
        words.end()?;
        self.current = None;
        let Some(texts) = &self.texts else {
            return Err(Answer::Unmet("texts"));
        };
        let (resolve, answer) = calls::packages_of_texts(alloc, texts)?;
        self.current = Some(resolve);
        Ok(answer)
    }

    // ---- calls that need no valid `Resolve`

    fn module(&mut self, alloc: Global, words: &mut Words<'_>) -> Result<Answer, Answer> {
        let id = words.read();
        let word: EncodingWord = words.read();
        words.end()?;
        self.metadata = None;
        let Some(resolve) = &self.current else {
            return Err(Answer::Unmet("resolve"));
        };
        let (metadata, answer) = calls::module(alloc, resolve, id, word.encoding)?;
        self.metadata = Some(metadata);
        Ok(answer)
    }

    fn get(&self, alloc: Global, words: &mut Words<'_>) -> Result<Answer, Answer> {
        let key = words.read();
        let name = words.text();
        words.end()?;
        let Some(resolve) = &self.current else {
            return Err(Answer::Unmet("resolve"));
        };
        match &self.metadata {
            Some(metadata) => calls::get(alloc, self.marks, resolve, metadata, &key, &name),
            None => Err(Answer::Unmet("module")),
        }
    }

    fn package_json(&self, alloc: Global, words: &mut Words<'_>) -> Result<Answer, Answer> {
        let id = words.read();
        words.end()?;
        match &self.current {
            Some(resolve) => calls::package_json(alloc, resolve, id),
            None => Err(Answer::Unmet("resolve")),
        }
    }

    fn world_json(&self, alloc: Global, words: &mut Words<'_>) -> Result<Answer, Answer> {
        let id = words.read();
        words.end()?;
        match &self.current {
            Some(resolve) => calls::world_json(alloc, resolve, id),
            None => Err(Answer::Unmet("resolve")),
        }
    }

    // Gives the `Resolve` and the encodings up.
    fn bound_json(&mut self, alloc: Global, words: &mut Words<'_>) -> Result<Answer, Answer> {
        let id = words.read();
        words.end()?;
        let Some(resolve) = self.current.take() else {
            return Err(Answer::Unmet("resolve"));
        };
        match self.metadata.take() {
            Some(metadata) => calls::bound_json(alloc, resolve, id, metadata),
            None => Err(Answer::Unmet("module")),
        }
    }

    fn counts(&self, alloc: Global, words: &mut Words<'_>) -> Result<Answer, Answer> {
        words.end()?;
        match &self.current {
            Some(resolve) => calls::counts(alloc, resolve),
            None => Err(Answer::Unmet("resolve")),
        }
    }

    // ---- bindings

    // What a module without worlds binds, or a world and its encoding where they follow.
    fn bind(&mut self, alloc: Global, words: &mut Words<'_>) -> Result<Answer, Answer> {
        self.bound = Some(if words.is_at_end() {
            Bindgen::default(alloc)?
        } else {
            self.binding(alloc, words)?
        });
        Ok(Answer::Yes)
    }

    // The binding of a world. Gives the `Resolve` up.
    fn binding(&mut self, alloc: Global, words: &mut Words<'_>) -> Result<Bindgen, Answer>
        ensures { IfOk result IsBindgen }
    {
        let id = words.read();
        let word: EncodingWord = words.read();
        words.end()?;
        let Some(resolve) = self.current.take() else {
            return Err(Answer::Unmet("resolve"));
        };
        binding(alloc, resolve, id, word.encoding)
    }

    // What a module binds, or the whole text of the refusal.
    fn bind_bytes(&mut self, alloc: Global, bytes: &[u8]) -> Result<Answer, Answer> {
        match metadata::decode(alloc, bytes) {
            Ok((_module, bound)) => {
                self.bound = Some(bound);
                Ok(Answer::Yes)
            }
            Err(Error::Memory) => Err(Answer::Refused(Error::Memory)),
            Err(error) => Ok(Answer::Text(format!(in alloc; "{error}")?)),
        }
    }

    // The same of the bytes that follow, or of those that were kept where none do.
    fn bind_module(&mut self, alloc: Global, words: &mut Words<'_>) -> Result<Answer, Answer> {
        if !words.is_at_end() {
            let bytes = words.bytes();
            words.end()?;
            return self.bind_bytes(alloc, &bytes);
        }
        let Some(kept) = self.kept.take() else {
            return Err(Answer::Unmet("bytes"));
        };
        let answer = self.bind_bytes(alloc, &kept);
        self.kept = Some(kept);
        answer
    }

    // Gives the `Resolve` up.
    fn merge(&mut self, alloc: Global, words: &mut Words<'_>) -> Result<Answer, Answer> {
        let other = self.binding(alloc, words)?;
        let Some(own) = self.bound.take() else {
            return Err(Answer::Unmet("bindings"));
        };
        let (bound, answer) = merge(alloc, self.marks, own, other)?;
        self.bound = Some(bound);
        Ok(answer)
    }

    // What is carried over from keys without version, as the encodings that were made last.
    fn carry_over(&mut self, alloc: Global, words: &mut Words<'_>) -> Result<Answer, Answer> {
        let id: WorldId = words.read();
        let side = side(words);
        let entries: Vec<UnversionedWords> = words.list();
        words.end()?;
        let Some(resolve) = &self.current else {
            return Err(Answer::Unmet("resolve"));
        };
        let found = calls::carried_over(alloc, self.marks, resolve, id, side, entries)?;
        let Some(world) = resolve.worlds.get(id.0 as usize) else {
            return Err(Answer::Unmet("range"));
        };
        let words = letters(alloc, resolve, world, &found)?;
        self.metadata = Some(found);
        Ok(Answer::Words(words))
    }

    fn value_type(&self, alloc: Global, words: &mut Words<'_>) -> Result<Answer, Answer> {
        let id = words.read();
        words.end()?;
        let Some(resolve) = &self.current else {
            return Err(Answer::Unmet("resolve"));
        };
        calls::test_valid(alloc, resolve)?;
        value_type(alloc, self.marks, resolve, id)
    }

    fn without_memory(&self, alloc: Global, words: &mut Words<'_>) -> Result<Answer, Answer> {
        words.end()?;
        match &self.current {
            Some(resolve) => no_memory(alloc, self.marks, resolve),
            None => Err(Answer::Unmet("resolve")),
        }
    }

    // Takes the bindings apart: the number of the bound world.
    fn unbind(&mut self, words: &mut Words<'_>) -> Result<Answer, Answer> {
        words.end()?;
        let Some(bound) = self.bound.take() else {
            return Err(Answer::Unmet("bindings"));
        };
        self.current = Some(bound.resolve);
        self.metadata = Some(bound.metadata);
        Ok(Answer::Count(u64::from(bound.world.0)))
    }

    fn validity(&self, alloc: Global, call: Validity) -> Answer {
        let Some(resolve) = &self.current else {
            return Answer::Unmet("resolve");
        };
        match call {
            Validity::Check => calls::check(alloc, resolve),
            Validity::Rule => calls::rule(alloc, resolve),
            Validity::Valid => calls::valid(alloc, resolve),
        }
    }

    // On the bytes that follow, or on those that were kept where none do.
    fn with_bytes(
        &self,
        alloc: Global,
        call: OnBytes,
        words: &mut Words<'_>,
    ) -> Result<Answer, Answer> {
        if !words.is_at_end() {
            let bytes = words.bytes();
            words.end()?;
            return on_bytes(alloc, call, &bytes);
        }
        match &self.kept {
            Some(kept) => on_bytes(alloc, call, kept),
            None => Err(Answer::Unmet("bytes")),
        }
    }

    fn set(
        &mut self,
        alloc: Global,
        setting: Setting,
        words: &mut Words<'_>,
    ) -> Result<Answer, Answer> {
        match setting {
            Setting::Resolve => self.read(words),
            Setting::Other => self.read_other(words),
            Setting::Bytes => self.keep(words),
            Setting::Texts => self.keep_texts(words),
            Setting::Brief => Ok(self.set_brief(true)),
            Setting::Full => Ok(self.set_brief(false)),
            Setting::Bind => self.bind(alloc, words),
            Setting::Bindings => self.bind_module(alloc, words),
            Setting::Unbind => self.unbind(words),
        }
    }

    fn on_any(
        &mut self,
        alloc: Global,
        call: OnAny,
        words: &mut Words<'_>,
    ) -> Result<Answer, Answer> {
        match call {
            OnAny::Label => label(words),
            OnAny::Module => self.module(alloc, words),
            OnAny::Counts => self.counts(alloc, words),
            OnAny::Json => self.package_json(alloc, words),
            OnAny::JsonWorld => self.world_json(alloc, words),
            OnAny::JsonBound => self.bound_json(alloc, words),
        }
    }

    fn without_check(
        &mut self,
        alloc: Global,
        asked: Asked,
        words: &mut Words<'_>,
    ) -> Result<Answer, Answer> {
        match asked {
            Asked::Validity(call) => Ok(self.validity(alloc, call)),
            Asked::OnBytes(call) => self.with_bytes(alloc, call, words),
            Asked::Read => self.read_texts(alloc, words),
            Asked::Setting(setting) => self.set(alloc, setting, words),
            Asked::OnAny(call) => self.on_any(alloc, call, words),
            _ => Err(Answer::Bad),
        }
    }

    // ---- calls that are timed, behind a check that isn't

    fn on_current<R: Clock>(
        &self,
        clock: &R,
        alloc: Global,
        call: OnValid,
        words: &mut Words<'_>,
    ) -> io::Result<Reply> {
        let Some(resolve) = &self.current else {
            return Ok(Reply::at_once(Answer::Unmet("resolve")));
        };
        match calls::test_valid(alloc, resolve) {
            Ok(()) => timed_on_valid(clock, alloc, self.marks, resolve, call, words),
            Err(answer) => Ok(Reply::at_once(answer)),
        }
    }

    // Gives the `Resolve` up.
    fn semver<R: Clock>(
        &mut self,
        clock: &R,
        alloc: Global,
        is_counted: bool,
        words: &mut Words<'_>,
    ) -> io::Result<Reply> {
        let prev = words.read();
        let new = words.read();
        if let Err(bad) = words.end() {
            return Ok(Reply::at_once(Answer::from(bad)));
        }
        let Some(resolve) = self.current.take() else {
            return Ok(Reply::at_once(Answer::Unmet("resolve")));
        };
        match calls::test_valid(alloc, &resolve) {
            Ok(()) => timed_semver(clock, alloc, self.marks, resolve, is_counted, prev, new),
            Err(answer) => Ok(Reply::at_once(answer)),
        }
    }

    // Two places, of the last `resolve` and of the last `other`, or both of the first where there is no second.
    fn sense(&self, alloc: Global, words: &mut Words<'_>) -> Result<Answer, Answer> {
        let at = place(words);
        let there = place(words);
        words.end()?;
        let Some(resolve) = &self.current else {
            return Err(Answer::Unmet("resolve"));
        };
        match &self.other {
            Some(other) => sense_of(alloc, self.marks, resolve, at, other, there),
            None => sense_of(alloc, self.marks, resolve, at, resolve, there),
        }
    }

    // Calls between marks of their own, behind what they are made on.
    fn between_marks(
        &mut self,
        alloc: Global,
        call: Marked,
        words: &mut Words<'_>,
    ) -> Result<Answer, Answer> {
        match call {
            Marked::Sense => self.sense(alloc, words),
            Marked::Merge => self.merge(alloc, words),
            Marked::Get => self.get(alloc, words),
            Marked::Unversioned => self.carry_over(alloc, words),
            Marked::ValueType => self.value_type(alloc, words),
            Marked::NoMemory => self.without_memory(alloc, words),
        }
    }

    fn other_call<R: Clock>(
        &mut self,
        clock: &R,
        alloc: Global,
        asked: Asked,
        words: &mut Words<'_>,
    ) -> io::Result<Reply> {
        let start = Instant::now(clock)?;
        self.marks.begin(alloc)?;
        let answer = either(self.without_check(alloc, asked, words));
        self.marks.end(alloc)?;
        let spent = start.elapsed(clock)?;
        Ok(Reply { answer, spent })
    }

    // The word of the call, behind the one that asks for marks.
    fn call_word<'a>(&mut self, words: &mut Words<'a>) -> &'a [u8] {
        let word = words.word();
        let are_made = word == b"marked".as_slice();
        self.marks = Marks { are_made };
        if are_made { words.word() } else { word }
    }

    fn reply<R: Clock>(
        &mut self,
        clock: &R,
        alloc: Global,
        words: &mut Words<'_>,
    ) -> io::Result<Reply> {
        let word = self.call_word(words);
        match asked_by(word) {
            Some(Asked::OnValid(call)) => self.on_current(clock, alloc, call, words),
            Some(Asked::Marked(call)) => {
                Ok(Reply::at_once(either(self.between_marks(alloc, call, words))))
            }
            Some(Asked::Semver { is_counted }) => self.semver(clock, alloc, is_counted, words),
            Some(asked) => self.other_call(clock, alloc, asked, words),
            None => Ok(Reply::at_once(Answer::Bad)),
        }
    }

    /// What a line is answered. One that begins with `#` says what follows, and is answered by itself.
    pub fn answer<R: Clock>(&mut self, clock: &R, alloc: Global, line: &str) -> io::Result<String> {
        if line.starts_with('#') {
            return Ok(String::from_str(alloc, line)?);
        }
        let reply = self.reply(clock, alloc, &mut Words::new(alloc, line.as_bytes()))?;
        Ok(reply.line(alloc, self.is_brief)?)
    }
}
