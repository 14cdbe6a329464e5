//! The table of words and options, from which the command line is read and usage, help, completions and the manual page are made.

ghost use Rattle.std.specs.Prelude.{◌≡◌, nat_eq, not, length};
ghost use Rattle.teasel_words.specs.Table.{all_options, all_words, first_option, first_word, has_value, is_name_of, least_of, most_of, name_of, option_name, option_short, words_of};

/// A word of the program.
#[derive(Clone, Copy)]
pub enum Word {
    Text,
    Json,
    Wasm,
    Kind,
    Check,
    Compat,
    Diff,
    Embed,
    Strip,
    Sections,
    Completion,
    Man,
    Help,
    Version,
}

/// An option of the program.
#[derive(Clone, Copy)]
pub enum Opt {
    Output,
    World,
    Encoding,
    As,
    Json,
    Quiet,
    Color,
    Force,
    Most,
    MostRead,
    Help,
}

/// What the table says of a word.
#[derive(Clone, Copy)]
pub struct WordLine {
    pub name: &'static str,
    /// What follows it, as usage shows it.
    pub takes: &'static str,
    /// So many files at least.
    pub least: usize,
    /// So many at most.
    pub most: usize,
    pub does: &'static str,
}

/// What the table says of an option.
#[derive(Clone, Copy)]
pub struct OptionLine {
    pub name: &'static str,
    /// Another name, or nothing.
    pub short: &'static str,
    /// The value that it has, as usage shows it, or nothing.
    pub value: &'static str,
    /// The words that take it.
    pub words: &'static [Word],
    pub does: &'static str,
}

/// More files than a command line has room for.
pub const MANY: usize = 1_000_000_000;

/// The words, in the order in which they are shown.
pub const WORDS: [Word; 14] = [
    Word::Text,
    Word::Json,
    Word::Wasm,
    Word::Kind,
    Word::Check,
    Word::Compat,
    Word::Diff,
    Word::Embed,
    Word::Strip,
    Word::Sections,
    Word::Completion,
    Word::Man,
    Word::Help,
    Word::Version,
];

/// The options, in the order in which they are shown.
pub const OPTIONS: [Opt; 11] = [
    Opt::Output,
    Opt::World,
    Opt::Encoding,
    Opt::As,
    Opt::Json,
    Opt::Quiet,
    Opt::Color,
    Opt::Force,
    Opt::Most,
    Opt::MostRead,
    Opt::Help,
];

impl Word {
    /// The word's line of the table.
    pub fn line(self) -> WordLine
        ensures name { result.name.now ≡ name_of self }
        ensures least { result.least ≡ least_of self }
        ensures most { result.most ≡ most_of self }
    {
        match self {
            Word::Text => WordLine {
                name: "text",
                takes: "[FILE]",
                least: 0,
                most: 1,
                does: "write the WIT text of a package, a world or a core module",
            },
            Word::Json => WordLine {
                name: "json",
                takes: "[FILE]",
                least: 0,
                most: 1,
                does: "write the same as JSON",
            },
            Word::Wasm => WordLine {
                name: "wasm",
                takes: "[FILE]",
                least: 0,
                most: 1,
                does: "write it as a package in binary form",
            },
            Word::Kind => WordLine {
                name: "kind",
                takes: "FILE..",
                least: 1,
                most: MANY,
                does: "say what each file is",
            },
            Word::Check => WordLine {
                name: "check",
                takes: "FILE..",
                least: 1,
                most: MANY,
                does: "say whether each file can be read, and what is wrong with it",
            },
            Word::Compat => WordLine {
                name: "compat",
                takes: "FILE -w OLD=NEW",
                least: 1,
                most: 1,
                does: "say whether a world can replace another one of its package",
            },
            Word::Diff => WordLine {
                name: "diff",
                takes: "OLD NEW",
                least: 2,
                most: 2,
                does: "compare the WIT texts of two files, line by line",
            },
            Word::Embed => WordLine {
                name: "embed",
                takes: "MODULE PACKAGE",
                least: 2,
                most: 2,
                does: "write MODULE with a world of PACKAGE as one more section",
            },
            Word::Strip => WordLine {
                name: "strip",
                takes: "[MODULE]",
                least: 0,
                most: 1,
                does: "write MODULE without the sections that contain worlds",
            },
            Word::Sections => WordLine {
                name: "sections",
                takes: "[MODULE]",
                least: 0,
                most: 1,
                does: "list those sections",
            },
            Word::Completion => WordLine {
                name: "completion",
                takes: "bash|zsh|fish",
                least: 1,
                most: 1,
                does: "write completions for a shell",
            },
            Word::Man => WordLine {
                name: "man",
                takes: "",
                least: 0,
                most: 0,
                does: "write the manual page",
            },
            Word::Help => WordLine {
                name: "help",
                takes: "[WORD]",
                least: 0,
                most: 1,
                does: "explain a word",
            },
            Word::Version => WordLine {
                name: "version",
                takes: "",
                least: 0,
                most: 0,
                does: "write the version",
            },
        }
    }
}

impl Opt {
    /// The option's line of the table.
    pub fn line(self) -> OptionLine
        ensures name { result.name.now ≡ option_name self }
        ensures short { result.short.now ≡ option_short self }
        ensures value { nat_eq (length result.value.now) 0 ≡ not (has_value self) }
        ensures words { result.words.now ≡ words_of self }
    {
        match self {
            Opt::Output => OptionLine {
                name: "--output",
                short: "-o",
                value: "FILE",
                words: &[
                    Word::Text,
                    Word::Json,
                    Word::Wasm,
                    Word::Diff,
                    Word::Embed,
                    Word::Strip,
                ],
                does: "write to FILE, at once or not at all, instead of standard output",
            },
            Opt::World => OptionLine {
                name: "--world",
                short: "-w",
                value: "NAME",
                words: &[Word::Compat, Word::Embed],
                does: "the world; compat: OLD=NEW, as often as you like",
            },
            Opt::Encoding => OptionLine {
                name: "--encoding",
                short: "",
                value: "utf8|utf16|latin1+utf16",
                words: &[Word::Embed],
                does: "the string encoding; utf8 unless you say",
            },
            Opt::As => OptionLine {
                name: "--as",
                short: "",
                value: "package|world|module",
                words: &[Word::Text, Word::Json, Word::Wasm, Word::Diff],
                does: "what FILE is, if its bytes aren't to tell",
            },
            Opt::Json => OptionLine {
                name: "--json",
                short: "",
                value: "",
                words: &[Word::Kind, Word::Check, Word::Compat, Word::Sections],
                does: "answer as JSON",
            },
            Opt::Quiet => OptionLine {
                name: "--quiet",
                short: "-q",
                value: "",
                words: &[Word::Check, Word::Compat, Word::Diff],
                does: "answer by the exit status alone",
            },
            Opt::Color => OptionLine {
                name: "--color",
                short: "",
                value: "auto|always|never",
                words: &[Word::Check, Word::Compat, Word::Diff],
                does: "auto: at a terminal, unless NO_COLOR is set",
            },
            Opt::Force => OptionLine {
                name: "--force",
                short: "",
                value: "",
                words: &[Word::Wasm, Word::Embed, Word::Strip],
                does: "write bytes to a terminal too",
            },
            Opt::Most => OptionLine {
                name: "--most",
                short: "",
                value: "SIZE",
                words: &[Word::Text, Word::Diff],
                does: "write at most SIZE bytes of text, as 64M; 256M unless you say",
            },
            Opt::MostRead => OptionLine {
                name: "--most-read",
                short: "",
                value: "SIZE",
                words: &[
                    Word::Text,
                    Word::Json,
                    Word::Wasm,
                    Word::Kind,
                    Word::Check,
                    Word::Compat,
                    Word::Diff,
                    Word::Embed,
                    Word::Strip,
                    Word::Sections,
                ],
                does: "read at most SIZE bytes of a file or a folder; 1G unless you say",
            },
            Opt::Help => OptionLine {
                name: "--help",
                short: "-h",
                value: "",
                words: &WORDS,
                does: "explain the word",
            },
        }
    }
}

/// The word of this name.
#[tactic(auto, unfolding(crate::specs::Table::all_words))]
pub fn word_named(name: &str) -> Option<Word>
    ensures { result ≡ first_word all_words name.now }
{
    word_among(&WORDS, name)
}

/// The word of this name among these.
pub fn word_among(words: &[Word], name: &str) -> Option<Word>
    ensures { result ≡ first_word words.now name.now }
{
    for word in words {
        if word.line().name == name {
            return Some(*word);
        }
    }
    None
}

/// The option of this name, long or short.
#[tactic(auto, unfolding(crate::specs::Table::all_options))]
pub fn option_named(name: &str) -> Option<Opt>
    ensures { result ≡ first_option all_options name.now }
{
    option_among(&OPTIONS, name)
}

fn option_among(options: &[Opt], name: &str) -> Option<Opt>
    ensures { result ≡ first_option options.now name.now }
{
    for option in options {
        if is_name(*option, name) {
            return Some(*option);
        }
    }
    None
}

/// Whether this is a name of the option. No option has an empty name.
fn is_name(option: Opt, name: &str) -> bool
    ensures { result ≡ is_name_of option name.now }
{
    let line = option.line();
    line.name == name || (!name.is_empty() && line.short == name)
}
