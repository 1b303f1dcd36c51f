//! What is left of a line while it is read: for the readers of sets and of rules.
ghost use Rattle.std.specs.Prelude.{◌≡◌, drop, slice_get, if◌then◌else◌};
ghost use Rattle.seg_notation.specs.Scanning.{past_blanks, begins_blank, begins_with};

/// What is left of a line, and where it is wrong if a fault is found now. A place is how many characters are left from it on.
#[derive(Clone, Copy)]
pub(crate) struct Line<'a> {
    rest: &'a [char],
    // The place behind the last character that was read, blanks aside.
    end: usize,
    // The place where a word or a sign was looked for last.
    token: usize,
}

impl<'a> Line<'a> {
    /// A line, of which nothing is read.
    pub(crate) fn new(rest: &'a [char]) -> Line<'a> {
        Line {
            rest,
            end: rest.len(),
            token: rest.len(),
        }
    }

    /// The place where a word or a sign was looked for last, behind blanks; at the end of the line, and before a comment, that is before
    /// the blanks. A fault is there.
    pub(crate) fn token(&self) -> usize {
        self.token
    }

    /// Sets that place, for a fault that is found only after more was read.
    pub(crate) fn go_back_to(&mut self, token: usize) {
        self.token = token;
    }

    /// How many characters are left, which is the place of the next.
    pub(crate) fn len(&self) -> usize {
        self.rest.len()
    }

    /// The next character.
    pub(crate) fn next(&self) -> Option<char>
        ensures { result ≡ slice_get self.now.rest.now 0 }
    {
        self.rest.first().copied()
    }

    /// Reads the next character.
    pub(crate) fn read(&mut self) -> Option<char>
        ensures { self.new.rest.now ≡ drop 1 self.old.rest.now }
    {
        let is_blank = self.is_before_blank();
        let (first, rest) = self.rest.split_first()?;
        self.rest = rest;
        if !is_blank {
            self.end = rest.len();
        }
        Some(*first)
    }

    /// Reads blanks. What comes next is looked for.
    pub(crate) fn skip_blanks(&mut self)
        ensures { self.new.rest.now ≡ past_blanks self.old.rest.now }
    {
        while self.is_before_blank() {
            self.read();
        }
        self.token = if self.is_before_end() {
            self.end
        } else {
            self.rest.len()
        };
    }

    // Whether the line ends here, or a `#` comes next.
    fn is_before_end(&self) -> bool {
        match self.next() {
            Some(next) => next == '#',
            None => true,
        }
    }

    // Whether a blank comes next.
    fn is_before_blank(&self) -> bool
        ensures { result ≡ begins_blank self.now.rest.now }
    {
        match self.next() {
            Some(next) => matches!(next, ' ' | '\t' | '\r'),
            None => false,
        }
    }

    /// Whether this character comes next; it is read if it does.
    pub(crate) fn takes_at_once(&mut self, wanted: char) -> bool
        ensures value { result ≡ begins_with wanted self.old.rest.now }
        ensures rest { self.new.rest.now ≡ (if result then drop 1 self.old.rest.now else self.old.rest.now) }
    {
        let is_next = self.is_before(wanted);
        if is_next {
            self.read();
        }
        is_next
    }

    // Whether this character comes next.
    fn is_before(&self, wanted: char) -> bool
        ensures { result ≡ begins_with wanted self.now.rest.now }
    {
        match self.next() {
            Some(next) => next == wanted,
            None => false,
        }
    }

    /// Whether this character comes next, behind blanks; they are read, and it is if it does.
    pub(crate) fn takes(&mut self, wanted: char) -> bool
        ensures value { result ≡ begins_with wanted (past_blanks self.old.rest.now) }
        ensures rest { let rest = past_blanks self.old.rest.now in self.new.rest.now ≡ (if result then drop 1 rest else rest) }
    {
        self.skip_blanks();
        self.takes_at_once(wanted)
    }

    /// Whether two dots come next, behind blanks; they are read with the blanks on both sides if they do.
    pub(crate) fn takes_dots(&mut self) -> bool {
        self.skip_blanks();
        let are_next = self.begins('.', '.');
        if are_next {
            self.read();
            self.read();
            self.skip_blanks();
        }
        are_next
    }

    /// Whether two characters come next.
    pub(crate) fn begins(&self, first: char, second: char) -> bool {
        self.next() == Some(first) && self.rest.get(1).copied() == Some(second)
    }

    /// Whether a code point comes next by its number, as `U+2010`.
    pub(crate) fn begins_number(&self) -> bool {
        let is_number = match self.rest.get(2) {
            Some(digit) => digit.is_ascii_hexdigit(),
            None => false,
        };
        self.begins('U', '+') && is_number
    }

    /// Reads a word of letters and digits of ASCII and low lines, behind blanks; an empty one if there is none.
    pub(crate) fn word(&mut self) -> &'a [char] {
        self.skip_blanks();
        self.cut(word_len(self.rest))
    }

    /// Whether this word comes next, behind blanks; it is read if it does.
    pub(crate) fn takes_word(&mut self, wanted: &str) -> bool {
        self.skip_blanks();
        let mut ahead = *self;
        let is_next = spells(wanted, ahead.word());
        if is_next {
            *self = ahead;
        }
        is_next
    }

    /// Reads what stands before the next `=` or `}`, which is looked for; all that is left if there is none.
    pub(crate) fn property(&mut self) -> &'a [char] {
        self.token = self.rest.len();
        self.cut(property_len(self.rest))
    }

    /// Whether nothing is left but blanks, and what follows a `#`. Blanks are read.
    pub(crate) fn is_done(&mut self) -> bool {
        self.skip_blanks();
        self.is_before_end()
    }

    // Reads so many characters, or all that are left.
    fn cut(&mut self, len: usize) -> &'a [char] {
        let (part, rest) = self.rest.split_at(len.min(self.rest.len()));
        self.rest = rest;
        self.end = rest.len();
        part
    }
}

/// Whether a name has the letters of a word. Names are ASCII.
pub(crate) fn spells(name: &str, word: &[char]) -> bool {
    let bytes = name.as_bytes();
    if bytes.len() != word.len() {
        return false;
    }
    for (byte, character) in bytes.iter().zip(word) {
        if u32::from(*byte) != u32::from(*character) {
            return false;
        }
    }
    true
}

// How many characters of a word come first.
fn word_len(characters: &[char]) -> usize {
    for (index, character) in characters.iter().enumerate() {
        if !character.is_ascii_alphanumeric() && *character != '_' {
            return index;
        }
    }
    characters.len()
}

// How many characters come before `=` or `}`.
fn property_len(characters: &[char]) -> usize {
    for (index, character) in characters.iter().enumerate() {
        if matches!(*character, '=' | '}') {
            return index;
        }
    }
    characters.len()
}
