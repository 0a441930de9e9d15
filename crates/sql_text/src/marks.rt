//! The tokens that have one spelling.
ghost use Rattle.std.specs.Prelude.{◌≡◌};
ghost use Rattle.sql_text.specs.Words.{mark_text};

/// A keyword or a symbol.
#[derive(Clone, Copy, PartialEq, Eq)]
pub enum Mark {
    And,
    Asc,
    Begin,
    Between,
    By,
    Commit,
    Count,
    Delete,
    Desc,
    End,
    From,
    Insert,
    Into,
    Limit,
    Max,
    Min,
    Mope,
    Order,
    Rebuild,
    Rollback,
    Select,
    Session,
    Table,
    Values,
    Where,
    /// `(`
    Open,
    /// `)`
    Close,
    Comma,
    Star,
    Semicolon,
    Equal,
    Less,
    LessEqual,
    Greater,
    GreaterEqual,
}

impl Mark {
    /// How it is written in a canonical line.
    pub fn text(self) -> &'static [u8]
        ensures { result.now ≡ mark_text self }
    {
        match self {
            Mark::And => b"AND",
            Mark::Asc => b"ASC",
            Mark::Begin => b"BEGIN",
            Mark::Between => b"BETWEEN",
            Mark::By => b"BY",
            Mark::Commit => b"COMMIT",
            Mark::Count => b"COUNT",
            Mark::Delete => b"DELETE",
            Mark::Desc => b"DESC",
            Mark::End => b"END",
            Mark::From => b"FROM",
            Mark::Insert => b"INSERT",
            Mark::Into => b"INTO",
            Mark::Limit => b"LIMIT",
            Mark::Max => b"MAX",
            Mark::Min => b"MIN",
            Mark::Mope => b"MOPE",
            Mark::Order => b"ORDER",
            Mark::Rebuild => b"REBUILD",
            Mark::Rollback => b"ROLLBACK",
            Mark::Select => b"SELECT",
            Mark::Session => b"SESSION",
            Mark::Table => b"TABLE",
            Mark::Values => b"VALUES",
            Mark::Where => b"WHERE",
            Mark::Open => b"(",
            Mark::Close => b")",
            Mark::Comma => b",",
            Mark::Star => b"*",
            Mark::Semicolon => b";",
            Mark::Equal => b"=",
            Mark::Less => b"<",
            Mark::LessEqual => b"<=",
            Mark::Greater => b">",
            Mark::GreaterEqual => b">=",
        }
    }
}
