//! What the words after the image ask for.
use labelled_disk::FileId;

/// What the words after the image ask for.
#[derive(Clone, Copy, Debug, PartialEq, Eq)]
pub enum Request<'w> {
    /// The listing as text.
    Listing,
    /// The listing as JSON.
    Json,
    /// The runs of a file, and the bytes of a page where one is asked for.
    File { id: FileId, page: Option<u32> },
    /// A picture in a new file of this path.
    Picture { path: &'w str },
}

// 16 hexadecimal digits.
fn id_of(word: &str) -> Option<FileId> {
    if word.len() != 16 || !word.bytes().all(|byte| byte.is_ascii_hexdigit()) {
        return None;
    }
    FileId::from_str_radix(word, 16).ok()
}

// Decimal digits alone, of a number below 2^32.
fn number_of(word: &str) -> Option<u32> {
    if word.is_empty() || !word.bytes().all(|byte| byte.is_ascii_digit()) {
        return None;
    }
    u32::from_str_radix(word, 10).ok()
}

// An option's name and value, which are one word or two, and the words after.
fn first_option(words: &[String]) -> Option<(&str, &str, &[String])> {
    let [word, rest @ ..] = words else {
        return None;
    };
    if let Some((name, value)) = word.as_str().split_once('=') {
        return Some((name, value, rest));
    }
    let [value, rest @ ..] = rest else {
        return None;
    };
    Some((word.as_str(), value.as_str(), rest))
}

// The page that the words after a file ask for.
fn page_request(words: &[String]) -> Option<u32> {
    match first_option(words)? {
        ("--page", page, []) => number_of(page),
        _ => None,
    }
}

fn file_request<'w>(id: &str, rest: &[String]) -> Option<Request<'w>> {
    let id = id_of(id)?;
    let page = match rest {
        [] => None,
        words => Some(page_request(words)?),
    };
    Some(Request::File { id, page })
}

/// What these words ask for, or none where they ask for nothing.
pub fn request_of(words: &[String]) -> Option<Request<'_>> {
    match words {
        [] => return Some(Request::Listing),
        [word] if word.as_str() == "--json" => return Some(Request::Json),
        _ => {}
    }
    match first_option(words)? {
        ("--picture", path, []) => Some(Request::Picture { path }),
        ("--file", id, rest) => file_request(id, rest),
        _ => None,
    }
}
