//! How a message breaks a rule.

/// What a string of a message is, and its number or that of its error; 0 where it has none.
#[derive(Clone, Copy)]
pub struct Label {
    pub words: &'static str,
    pub number: u64,
}

/// No string.
pub const UNLABELLED: Label = Label {
    words: "",
    number: 0,
};

/// How a message breaks a rule: what the rule's sentence says beside its words.
#[derive(Clone, Copy)]
pub struct Breach<'a, 'b> {
    /// Which of the rule's sentences, from 0.
    pub sentence: usize,
    /// The number of the request that it speaks of, from 1; 0 where it speaks of none.
    pub request: u64,
    /// The type of that request.
    pub command: u16,
    pub string: Label,
    /// In the order of their braces.
    pub numbers: &'a [u64],
    /// In the order of their braces.
    pub names: [&'b [u8]; 2],
}
