//! Texts that are refused, each with what is wrong with it.

/// Each text, after a name of what is wrong.
pub(crate) static TEXTS: [(&str, &str); 33] = [
    ("no text", ""),
    ("nothing but a comment", "# none\n\n"),
    ("no last rule", "A = [a]\nA × A\n"),
    ("a code point in two sets", "A = [a..k]\n\nB = [k..z]\n÷\n"),
    (
        "one in a property and a bracket",
        "Letter = \\p{Alphabetic}\nDash = [- A]\n÷",
    ),
    ("a name twice", "A = [a]\nA = [b]\n÷"),
    ("a name of its own meaning", "other = [a]\n÷"),
    ("an unknown property", "A = [a]\nB = \\p{Alphabetical}\n÷"),
    ("an unknown value", "B = \\p{gc=Letters}\n÷"),
    ("a property without its end", "B = \\p{Alphabetic\n÷"),
    ("a bracket without its end", "B = [a..z\n÷"),
    ("a bracket with a space alone", "B = [ ]\n÷"),
    ("a letter behind a backslash", "B = [\\n]\n÷"),
    ("a range without its end", "B = [a..]\n÷"),
    ("a backward range", "B = [z..a]\n÷"),
    ("a number that is no code point", "B = U+110000\n÷"),
    ("no term", "B = \n÷"),
    ("two terms without a sign", "B = [a] [b]\n÷"),
    ("a set after a rule", "A = [a]\nA × A\nB = [b]\n÷"),
    ("an unknown name", "A = [a]\nA × B\n÷"),
    (
        "a parenthesis without its end",
        "A = [a]\nB = [b]\n\n(A | B × A\n÷",
    ),
    ("a group of two symbols", "A = [a]\nB = [b]\n(A B)* × A\n÷"),
    ("a repetition of nothing", "A = [a]\n* × A\n÷"),
    ("a star with nothing after it", "A = [a]\nA × A A*\n÷"),
    ("a star with nothing before it", "A = [a]\nA? A × A\n÷"),
    ("no sign", "A = [a]\nA A\n÷"),
    ("two signs", "A = [a]\nA × A × A\n÷"),
    ("eight symbols on a side", "A = [a]\nA A A A A A A A × A\n÷"),
    ("the end on the left", "A = [a]\neot A × A\n÷"),
    ("the end joined", "A = [a]\n× eot\n÷"),
    (
        "marks in another form",
        "A = [a]\nX A* treated as A; alone as other\n÷",
    ),
    (
        "marks twice",
        "A = [a]\nX A* treated as X; alone as other\nX A* treated as X; alone as other\n÷",
    ),
    ("a class without its end", "A = [a]\n[^ A × A\n÷"),
];

/// Rules that are read and have no machine: a name like `HTTPServer` needs two lookaheads.
pub(crate) static TWO_LOOKAHEADS: &str = r"
Lower = \p{Ll}
Upper = \p{Lu}
Digit = \p{Nd}
Line  = [_]

Line × Line
Lower × Lower
Upper × Lower
Upper × Upper Upper
Upper × Upper (Digit | Line | other | eot)
Digit × Digit
(Lower | Upper) × Digit
other × other? other
÷
";

/// Rules that are read and have no machine: while a Beta is looked for, the places behind others are undecided too.
pub(crate) static TWO_UNDECIDED: &str = r"
Alpha = [a]
Beta  = [b]
Mark  = \p{M}

X Mark* treated as X; alone as other
Alpha × other* Beta
÷
";
