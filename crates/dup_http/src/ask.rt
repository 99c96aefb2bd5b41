// What the head of a request asks.
ghost use Rattle.std.specs.Prelude.{◌≡◌};
ghost use Rattle.dup_http.specs.Asks.{method_of, path_of};

use dup_names::Path;

/// The method of a request. Its name is told in just the case that is written here: `GET`, `HEAD`, `POST`.
#[derive(Clone, Copy, Debug, PartialEq, Eq)]
pub enum Method {
    Get,
    Head,
    Post,
    Other,
}

/// What a whole head asks, where no rule refuses it.
#[derive(Clone, Copy, Debug, PartialEq, Eq)]
pub struct Ask {
    pub method: Method,
    /// The target up to the first `?`, where that is a path.
    pub path: Option<Path>,
    /// The edition that the client has seen, by `DUP-Pass`; 0 without that field.
    pub pass: u64,
    /// How many bytes of body follow, by `Content-Length`, at most 262,144; 0 without that field.
    pub body: u32,
}

/// What the bytes of a connection are read as, so far.
#[derive(Clone, Copy, Debug, PartialEq, Eq)]
pub enum Reading {
    /// A whole head: what it asks, and its length in bytes. The body stands behind it.
    Complete(Ask, usize),
    /// No head is whole yet, and more bytes may come.
    More,
    /// The request is refused with this code: 400, 413, 431 or 501.
    Bad(u16),
}

/// The method that a name means.
pub(crate) fn method_named(name: &[u8]) -> Method
    ensures { result ≡ method_of name.now }
{
    match name {
        b"GET" => Method::Get,
        b"HEAD" => Method::Head,
        b"POST" => Method::Post,
        _ => Method::Other,
    }
}

/// The target up to the first `?`, where that is a path.
pub(crate) fn target_path(target: &[u8]) -> Option<Path>
    ensures { result ≡ path_of target.now }
{
    for i in 0..target.len() {
        if target[i] == b'?' {
            return Path::read(&target[..i]);
        }
    }
    Path::read(target)
}
