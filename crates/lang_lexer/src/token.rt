ghost use Rattle.std.specs.Prelude.{◌≡◌, IsTrue};
ghost use Rattle.lang_lexer.specs.declared.token.Mark.{Mark};
ghost use Rattle.lang_lexer.specs.Marks.{code, same, written};

use item_types::Text;

/// A keyword or a sign of the language.
#[derive(Clone, Copy, Debug, PartialEq, Eq)]
pub enum Mark {
    /// `let`
    Let,
    /// `produce`
    Produce,
    /// `for`
    For,
    /// `in`
    In,
    /// `if`
    If,
    /// `else`
    Else,
    /// `call`
    Call,
    /// `fail`
    Fail,
    /// `get`
    Get,
    /// `all`
    All,
    /// `new`
    New,
    /// `len`
    Len,
    /// `true`
    True,
    /// `false`
    False,
    /// `null`
    Null,
    /// `self`
    Me,
    /// `static`
    Static,
    /// `add`
    Add,
    /// `print`
    Print,
    /// `return`
    Return,
    /// `;`
    Semi,
    /// `,`
    Comma,
    /// `.`
    Dot,
    /// `:`
    Colon,
    /// `(`
    Open,
    /// `)`
    Close,
    /// `[`
    OpenList,
    /// `]`
    CloseList,
    /// `{`
    OpenBlock,
    /// `}`
    CloseBlock,
    /// `=`
    Assign,
    /// `==`
    Equal,
    /// `<`
    Less,
    /// `+`
    Plus,
    /// `!`
    Bang,
    /// `&&`
    And,
}

/// A token.
#[derive(Debug, Drop)]
pub enum Token {
    /// A keyword or a sign.
    Sign(Mark),
    /// A whole number.
    Number(i64),
    /// A quoted text, by what it says.
    Str(Text),
    /// A name.
    Name(Text),
}

impl Mark {
    /// Whether both are the same.
    pub fn same(self, other: Mark) -> bool
        ensures { result ≡ same self other }
    {
        self.code() == other.code()
    }

    /// How it is written.
    pub fn written(self) -> &'static str
        ensures { result.now ≡ written self }
    {
        match self {
            Mark::Let => "let",
            Mark::Produce => "produce",
            Mark::For => "for",
            Mark::In => "in",
            Mark::If => "if",
            Mark::Else => "else",
            Mark::Call => "call",
            Mark::Fail => "fail",
            Mark::Get => "get",
            Mark::All => "all",
            Mark::New => "new",
            Mark::Len => "len",
            Mark::True => "true",
            Mark::False => "false",
            Mark::Null => "null",
            Mark::Me => "self",
            Mark::Static => "static",
            Mark::Add => "add",
            Mark::Print => "print",
            Mark::Return => "return",
            Mark::Semi => ";",
            Mark::Comma => ",",
            Mark::Dot => ".",
            Mark::Colon => ":",
            Mark::Open => "(",
            Mark::Close => ")",
            Mark::OpenList => "[",
            Mark::CloseList => "]",
            Mark::OpenBlock => "{",
            Mark::CloseBlock => "}",
            Mark::Assign => "=",
            Mark::Equal => "==",
            Mark::Less => "<",
            Mark::Plus => "+",
            Mark::Bang => "!",
            Mark::And => "&&",
        }
    }

    fn code(self) -> u8
        ensures { result ≡ code self }
    {
        match self {
            Mark::Let => 0,
            Mark::Produce => 1,
            Mark::For => 2,
            Mark::In => 3,
            Mark::If => 4,
            Mark::Else => 5,
            Mark::Call => 6,
            Mark::Fail => 7,
            Mark::Get => 8,
            Mark::All => 9,
            Mark::New => 10,
            Mark::Len => 11,
            Mark::True => 12,
            Mark::False => 13,
            Mark::Null => 14,
            Mark::Me => 15,
            Mark::Static => 16,
            Mark::Add => 17,
            Mark::Print => 18,
            Mark::Return => 19,
            Mark::Semi => 20,
            Mark::Comma => 21,
            Mark::Dot => 22,
            Mark::Colon => 23,
            Mark::Open => 24,
            Mark::Close => 25,
            Mark::OpenList => 26,
            Mark::CloseList => 27,
            Mark::OpenBlock => 28,
            Mark::CloseBlock => 29,
            Mark::Assign => 30,
            Mark::Equal => 31,
            Mark::Less => 32,
            Mark::Plus => 33,
            Mark::Bang => 34,
            Mark::And => 35,
        }
    }
}

/// Two keywords or signs are told apart exactly where they differ.
pub fn told_apart()
    ensures only { (a b : Mark) → IsTrue (same a b) → a ≡ b }
    ensures itself { (m : Mark) → IsTrue (same m m) }
{}
