//! Whole characters in front of some bytes, by runs.

ghost use Rattle.std.specs.Prelude.{◌≡◌, ◌<◌, ◌≤◌, ◌↔◌, true, length, take, IsTrue, Some, None, if◌then◌else◌};
ghost use Rattle.std.specs.Str.{bytes_eq};
ghost use Rattle.file_text.specs.Grammar.{is_character, is_name_byte, is_name_start, is_plain, is_white};
ghost use Rattle.file_text.specs.inside.Runs.{HasFurther, HasSecond, IsCharacter, IsPartOfBody, IsRun, after_byte, behind, hyphened, is_in_body, place_behind, takes};

use crate::due::{second_max, second_min};
use crate::mode::Comment;

/// What the characters of a run are.
#[derive(Clone, Copy)]
pub(crate) enum Run {
    /// Those that stand for themselves between tags.
    Text,
    /// Those that stand for themselves in these quotes, `"` or `'`.
    Value { quote: u8 },
    /// Those of names.
    Name,
    White,
}

impl Run {
    /// Whether a character that begins so is one of the run.
    #[inline(always)]
    fn takes(self, b: u8) -> bool
        ensures { result ≡ takes self b }
    {
        match self {
            Run::Text => is_plain(b),
            Run::Value { quote } => b > b'<' || (b != quote && is_plain(b)),
            Run::Name => is_name_byte(b),
            Run::White => is_white(b),
        }
    }
}

#[inline(always)]
fn is_white(b: u8) -> bool
    ensures { result ≡ is_white b }
{
    b == b' ' || b == b'\t' || b == b'\n' || b == b'\r'
}

#[inline(always)]
fn is_character(b: u8) -> bool
    ensures { result ≡ is_character b }
{
    b >= b' ' || is_white(b)
}

#[inline(always)]
fn is_plain(b: u8) -> bool
    ensures { result ≡ is_plain b }
{
    // Most bytes are letters.
    b > b'<' || (is_character(b) && b != b'<' && b != b'&')
}

#[inline(always)]
fn is_name_byte(b: u8) -> bool
    ensures { result ≡ is_name_byte b }
{
    (b >= b'a' && b <= b'z')
        || (b >= b'A' && b <= b'Z')
        || (b == b'_' || b == b':' || b >= 128)
        || (b >= b'0' && b <= b'9')
        || (b == b'.' || b == b'-')
}

/// Whether a character that begins so may begin a name.
#[inline(always)]
pub(crate) fn is_name_start(b: u8) -> bool
    ensures { result ≡ is_name_start b }
{
    (b >= b'a' && b <= b'z') || (b >= b'A' && b <= b'Z') || (b == b'_' || b == b':' || b >= 128)
}

/// How many bytes in front are whole characters of the run.
#[inline(always)]
pub(crate) fn run_len(run: Run, bytes: &[u8]) -> usize
    ensures { IsRun run bytes.now result }
{
    let mut count = 0;
    while count < bytes.len() && run.takes(bytes[count]) {
        if bytes[count] < 128 {
            count += 1;
        } else {
            let more = wide_len(&bytes[count..]);
            if more == 0 {
                break;
            }
            count += more;
        }
    }
    count
}

/// The same with the body of a comment, and where in it they lead.
pub(crate) fn body_len(comment: Comment, bytes: &[u8]) -> (usize, Comment)
    requires { is_in_body comment ≡ true }
    ensures { IsPartOfBody comment result.1 bytes.now result.0 }
{
    let mut count = 0;
    while count < bytes.len() && comment.goes_on(&bytes[..count], bytes[count]) {
        if bytes[count] < 128 {
            count += 1;
        } else {
            let more = wide_len(&bytes[count..]);
            if more == 0 {
                break;
            }
            count += more;
        }
    }
    (count, comment.behind(&bytes[..count]))
}

impl Comment {
    /// Whether the body goes on with a further byte behind these ones of it: the byte neither ends it nor may not stand there.
    #[inline(always)]
    fn goes_on(self, read: &[u8], b: u8) -> bool
        ensures { after_byte (place_behind self read.now) b ≡ (if result then Some (behind (place_behind self read.now) b) else None) }
    {
        // Most bytes are letters.
        b > b'>' || (is_character(b) && (b != b'>' || !self.behind(read).may_end()))
    }

    /// Whether the character `>` ends the comment.
    #[inline(always)]
    fn may_end(self) -> bool
        ensures { IsTrue result ↔ (self ≡ Comment.Hyphens) }
    {
        matches!(self, Comment::Hyphens)
    }

    /// Where in the body these bytes of it lead, which the last two tell.
    #[inline(always)]
    fn behind(self, read: &[u8]) -> Comment
        ensures { result ≡ place_behind self read.now }
    {
        let n = read.len();
        if n == 0 {
            return self;
        }
        if read[n - 1] != b'-' {
            return Comment::Body;
        }
        if n == 1 {
            return self.hyphened();
        }
        if read[n - 2] == b'-' {
            Comment::Hyphens
        } else {
            Comment::Hyphen
        }
    }

    /// What has been read after a hyphen more.
    #[inline(always)]
    fn hyphened(self) -> Comment
        ensures { result ≡ hyphened self }
    {
        match self {
            Comment::Body => Comment::Hyphen,
            _ => Comment::Hyphens,
        }
    }
}

/// How many bytes the character from U+0080 up in front has, or 0 where none stands there whole.
#[inline(always)]
fn wide_len(bytes: &[u8]) -> usize
    requires { 0 < length bytes.now }
    ensures { IsCharacter bytes.now result }
{
    match bytes[0] {
        0xC2..=0xDF if is_pair(bytes) => 2,
        0xE0..=0xEF if is_triple(bytes) => 3,
        0xF0..=0xF4 if is_triple(bytes) && bytes.len() >= 4 && continues(bytes[3]) => 4,
        _ => 0,
    }
}

/// Whether a second byte of a character follows the first one.
#[inline(always)]
fn is_pair(bytes: &[u8]) -> bool
    ensures { IsTrue result → HasSecond bytes.now }
{
    bytes.len() >= 2 && second_min(bytes[0]) <= bytes[1] && bytes[1] <= second_max(bytes[0])
}

/// Whether a second and a third byte of a character follow the first one.
#[inline(always)]
fn is_triple(bytes: &[u8]) -> bool
    ensures { IsTrue result → HasSecond bytes.now × HasFurther bytes.now 2 }
{
    is_pair(bytes) && bytes.len() >= 3 && continues(bytes[2])
}

/// Whether the byte is one of a character's behind the second.
#[inline(always)]
fn continues(b: u8) -> bool
    ensures { IsTrue result → (0x80 ≤ b) × (b ≤ 0xBF) }
{
    b >= 0x80 && b <= 0xBF
}

/// How many bytes in front are the same.
pub(crate) fn same_len(left: &[u8], bytes: &[u8]) -> usize
    ensures left { result ≤ length left.now }
    ensures bytes { result ≤ length bytes.now }
    ensures same { take result left.now ≡ take result bytes.now }
{
    let mut count = 0;
    while count < left.len() && count < bytes.len() && left[count] == bytes[count] {
        count += 1;
    }
    count
}

/// Whether two names are the same. Most others differ in length or at the end.
#[inline(always)]
pub(crate) fn is_same(left: &[u8], right: &[u8]) -> bool
    ensures { result ≡ bytes_eq left.now right.now }
{
    let n = left.len();
    if n != right.len() {
        return false;
    }
    if n > 0 && left[n - 1] != right[n - 1] {
        return false;
    }
    left == right
}
