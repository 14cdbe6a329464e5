//! What lines ask for, by their first words.

use case_words::meaning_of;

/// Calls on a valid `Resolve`.
#[derive(Clone, Copy)]
pub enum OnValid {
    Encode,
    World,
    Metadata,
    Print,
    Normal,
    Names,
}

/// Whether a `Resolve` is valid, and what is told of the fault.
#[derive(Clone, Copy)]
pub enum Validity {
    Check,
    Rule,
    Valid,
}

/// Calls on bytes.
#[derive(Clone, Copy)]
pub enum OnBytes {
    Text,
    WorldText,
    Decode,
    DecodeAt,
    Strip,
    Said,
    Bound,
    Stripped,
    RefusedSection,
}

/// Calls between marks of their own.
#[derive(Clone, Copy)]
pub enum Marked {
    Sense,
    Merge,
    Get,
    Unversioned,
    ValueType,
    NoMemory,
}

/// What lines that follow are asked on.
#[derive(Clone, Copy)]
pub enum Setting {
    Resolve,
    Other,
    Bytes,
    Texts,
    Brief,
    Full,
    Bind,
    Bindings,
    Unbind,
}

/// Calls on a text or on any `Resolve`.
#[derive(Clone, Copy)]
pub enum OnAny {
    Label,
    Module,
    Counts,
    Json,
    JsonWorld,
    JsonBound,
}

#[derive(Clone, Copy)]
pub enum Asked {
    OnValid(OnValid),
    Semver { is_counted: bool },
    Marked(Marked),
    Validity(Validity),
    OnBytes(OnBytes),
    /// The call on texts.
    Read,
    Setting(Setting),
    OnAny(OnAny),
}

static WORDS: [(&[u8], Asked); 42] = [
    (b"encode", Asked::OnValid(OnValid::Encode)),
    (b"world", Asked::OnValid(OnValid::World)),
    (b"metadata", Asked::OnValid(OnValid::Metadata)),
    (b"print", Asked::OnValid(OnValid::Print)),
    (b"normal", Asked::OnValid(OnValid::Normal)),
    (b"names", Asked::OnValid(OnValid::Names)),
    (b"semver", Asked::Semver { is_counted: false }),
    (b"steps", Asked::Semver { is_counted: true }),
    (b"sense", Asked::Marked(Marked::Sense)),
    (b"merge", Asked::Marked(Marked::Merge)),
    (b"get", Asked::Marked(Marked::Get)),
    (b"unversioned", Asked::Marked(Marked::Unversioned)),
    (b"valtype", Asked::Marked(Marked::ValueType)),
    (b"no-memory", Asked::Marked(Marked::NoMemory)),
    (b"check", Asked::Validity(Validity::Check)),
    (b"rule", Asked::Validity(Validity::Rule)),
    (b"valid", Asked::Validity(Validity::Valid)),
    (b"text", Asked::OnBytes(OnBytes::Text)),
    (b"world-text", Asked::OnBytes(OnBytes::WorldText)),
    (b"decode", Asked::OnBytes(OnBytes::Decode)),
    (b"decode-at", Asked::OnBytes(OnBytes::DecodeAt)),
    (b"strip", Asked::OnBytes(OnBytes::Strip)),
    (b"said", Asked::OnBytes(OnBytes::Said)),
    (b"bound", Asked::OnBytes(OnBytes::Bound)),
    (b"stripped", Asked::OnBytes(OnBytes::Stripped)),
    (b"refused-section", Asked::OnBytes(OnBytes::RefusedSection)),
    (b"read", Asked::Read),
    (b"resolve", Asked::Setting(Setting::Resolve)),
    (b"other", Asked::Setting(Setting::Other)),
    (b"bytes", Asked::Setting(Setting::Bytes)),
    (b"texts", Asked::Setting(Setting::Texts)),
    (b"brief", Asked::Setting(Setting::Brief)),
    (b"full", Asked::Setting(Setting::Full)),
    (b"bind", Asked::Setting(Setting::Bind)),
    (b"bindings", Asked::Setting(Setting::Bindings)),
    (b"unbind", Asked::Setting(Setting::Unbind)),
    (b"label", Asked::OnAny(OnAny::Label)),
    (b"module", Asked::OnAny(OnAny::Module)),
    (b"counts", Asked::OnAny(OnAny::Counts)),
    (b"json", Asked::OnAny(OnAny::Json)),
    (b"json-world", Asked::OnAny(OnAny::JsonWorld)),
    (b"json-bound", Asked::OnAny(OnAny::JsonBound)),
];

/// What a word asks for, if it is one of these.
pub fn asked_by(word: &[u8]) -> Option<Asked> {
    meaning_of(&WORDS, word)
}
