//! The laws of tokens: the text determines them, and its names are names by themselves.
ghost use Rattle.fb_lex.specs.Laws.{OneNextToken, OneFault, NotBoth, OneTokenList, NamesAreSpelled};

/// The answer of [`next_token`](crate::next_token) is determined by the text and the previous token.
pub fn one_answer()
    ensures token { OneNextToken }
    ensures fault { OneFault }
    ensures not_both { NotBoth }
{}

/// A text has at most one list of tokens, with one ending.
pub fn one_token_list()
    ensures { OneTokenList }
{}

/// The bytes of each name of a text are by themselves one token, a name of at most 255 bytes.
pub fn names_are_spelled()
    ensures { NamesAreSpelled }
{}
