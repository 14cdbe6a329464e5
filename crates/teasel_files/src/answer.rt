//! What a word answers.

ghost use Rattle.std.specs.Prelude.{◌≡◌};

/// What a word answers: yes or no, and a text or bytes.
#[derive(Drop)]
pub struct Answer {
    pub yes: bool,
    pub text: Vec<u8>,
    /// Whether these bytes are no text.
    pub binary: bool,
}

impl Answer {
    /// A text, and yes or no.
    pub fn told(text: Vec<u8>, fits: bool) -> Answer
        ensures { (result.yes ≡ fits) × (result.text ≡ text) }
    {
        Answer {
            yes: fits,
            text,
            binary: false,
        }
    }
}
