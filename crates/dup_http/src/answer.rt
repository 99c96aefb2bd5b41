// What a reply is.
ghost use Rattle.std.specs.Prelude.{◌≡◌, ◌≤◌, length};
ghost use Rattle.dup_http.specs.Replies.{allow_text, cache_text};

/// The methods that a path allows.
#[derive(Clone, Copy, Debug, PartialEq, Eq)]
pub enum Allow {
    /// `GET` and `HEAD`.
    GetHead,
    /// `POST` alone.
    Post,
}

/// Where a page came from.
#[derive(Clone, Copy, Debug, PartialEq, Eq)]
pub enum CacheWord {
    /// The cache had it.
    Hit,
    /// The cache had it not, and keeps it from now on.
    Miss,
    /// The cache had it not, and could not keep it.
    Unkept,
}

/// What the head of a reply says. A field that is `None` isn't written.
#[derive(Clone, Copy, Debug, PartialEq, Eq)]
pub struct Answer {
    /// The status code, one of 200, 400, 404, 405, 413, 422, 431, 501 and 503.
    pub code: u16,
    /// Whether the body is a page, which is HTML, or plain text.
    pub page: bool,
    /// The body's length in bytes.
    pub length: u64,
    /// The methods that are allowed.
    pub allow: Option<Allow>,
    /// The number of the edition that the reply is from.
    pub edition: Option<u64>,
    /// The version of the data that the page shows.
    pub version: Option<u64>,
    /// The edition that the client asked for at least.
    pub pass: Option<u64>,
    /// Where the page came from.
    pub cache: Option<CacheWord>,
}

impl Allow {
    pub(crate) fn text(self) -> &'static str
        ensures value { result.now ≡ allow_text self }
        ensures short { length result.now ≤ 9 }
    {
        match self {
            Allow::GetHead => "GET, HEAD",
            Allow::Post => "POST",
        }
    }
}

impl CacheWord {
    pub(crate) fn text(self) -> &'static str
        ensures value { result.now ≡ cache_text self }
        ensures short { length result.now ≤ 6 }
    {
        match self {
            CacheWord::Hit => "hit",
            CacheWord::Miss => "miss",
            CacheWord::Unkept => "unkept",
        }
    }
}
