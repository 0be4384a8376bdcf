//! Which words are names.
ghost use Rattle.std.specs.Prelude.{◌≡◌};
ghost use Rattle.wy_data.specs.Words as words;

use crate::name::same_bytes;

/// Whether a name may begin with the character: it has the property XID_Start of Unicode, or is `_`.
pub fn is_start(c: char) -> bool
    ensures value { result ≡ words.is_start c }
{
    unicode_ident::is_xid_start(c) || c == '_'
}

/// Whether a name may go on with the character: it has the property XID_Continue of Unicode, as `_` has.
pub fn is_part(c: char) -> bool
    ensures value { result ≡ words.is_part c }
{
    unicode_ident::is_xid_continue(c)
}

/// Whether the word is one of the language's own, and so no name.
#[tactic(auto, unfolding(crate::specs::Words::is_keyword))]
pub fn is_keyword(word: &[u8]) -> bool
    ensures value { result ≡ words.is_keyword word.now }
{
    for keyword in KEYWORDS.as_slice() {
        if same_bytes(keyword.as_bytes(), word) {
            return true;
        }
    }
    false
}

const KEYWORDS: [&str; 33] = [
    "type", "is", "where", "function", "method", "property", "requires", "ensures", "if", "else",
    "while", "do", "switch", "case", "default", "for", "in", "return", "break", "continue",
    "assert", "fail", "skip", "all", "some", "null", "bool", "int", "any", "void", "true", "false",
    "import",
];
