//! What is known of the streams.

/// What is known of the streams.
#[derive(Clone, Copy)]
pub struct Setting {
    /// Whether standard input is a terminal.
    pub in_terminal: bool,
    /// Whether standard output is a terminal.
    pub out_terminal: bool,
    /// Whether standard error is a terminal.
    pub error_terminal: bool,
    /// Whether a terminal is coloured.
    pub color: bool,
}
