//! The first words of lines, and whether each kind of line belongs before or after `start`.
ghost use Rattle.std.specs.Prelude.{◌≡◌};
ghost use Rattle.grammar.specs.Lines.{keyword_of, is_declaring};

/// The first word of a line that is not skipped.
#[derive(Clone, Copy)]
pub(crate) enum Keyword {
    Input,
    Node,
    View,
    Start,
    Change,
    Advance,
    Close,
    Allow,
    Read,
    Changes,
    Frontier,
}

impl Keyword {
    // The keyword that the word spells, if it spells one.
    pub(crate) fn of(word: &str) -> Option<Keyword>
        ensures { result ≡ keyword_of word.now }
    {
        if word == "input" {
            Some(Keyword::Input)
        } else if word == "node" {
            Some(Keyword::Node)
        } else if word == "view" {
            Some(Keyword::View)
        } else if word == "start" {
            Some(Keyword::Start)
        } else if word == "change" {
            Some(Keyword::Change)
        } else if word == "advance" {
            Some(Keyword::Advance)
        } else if word == "close" {
            Some(Keyword::Close)
        } else if word == "allow" {
            Some(Keyword::Allow)
        } else if word == "read" {
            Some(Keyword::Read)
        } else if word == "changes" {
            Some(Keyword::Changes)
        } else if word == "frontier" {
            Some(Keyword::Frontier)
        } else {
            None
        }
    }

    // Whether the line belongs before `start`, or is `start`.
    pub(crate) fn is_early(self) -> bool
        ensures { result ≡ is_declaring self }
    {
        match self {
            Keyword::Input | Keyword::Node | Keyword::View | Keyword::Start => true,
            Keyword::Change
            | Keyword::Advance
            | Keyword::Close
            | Keyword::Allow
            | Keyword::Read
            | Keyword::Changes
            | Keyword::Frontier => false,
        }
    }
}
